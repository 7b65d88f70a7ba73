// Row records, group 3: checks 4, 7 and 8.
ghost use Rattle.std.specs.Prelude.{◌≡◌, false, [], ◌∷◌, ◌++◌, ◌≤◌, ltb, length, Some, IfOk, MatchResult};
ghost use Rattle.std.specs.Result.{result_err};
ghost use Rattle.rows.specs.View.{relation_of, Shaped};
ghost use Rattle.rows.specs.Fit.{fits_row};
ghost use Rattle.nets.specs.Tables.{with_rows};
ghost use Rattle.nets.specs.Steps.{check};
ghost use Rattle.nets.specs.View.{table_of, tables_of};
ghost use Rattle.record_bytes.specs.Bytes.{part};
ghost use Rattle.record_bytes.specs.Decoding.{row_in, row_form};
ghost use Rattle.load_walk.specs.Walking.{put_tables, AllShaped, LeadsPast, Stops, Going, first_fault};

use files::Fault;
use load_walk::contents::content_with;
use load_walk::walking::{next_group, record_at};
use load_walk::{Reach, Read};
use nets::Table;
use nets::tables::find_table;
use record_bytes::RECORD;
use record_forms::{record_name, record_site};
use record_nodes::tuples::row_read;

// The fault of a row that has no table.
fn lost_fault(place: usize, r: &[u8; RECORD]) -> Fault
    ensures { Some result ≡ first_fault place (check 4 (row_form r.now) ∷ check 7 false ∷ []) }
{
    let number = if row_read(r).is_some() { 7 } else { 4 };
    Fault { number, place }
}

// The table of a row with the row in it.
fn row_taken(place: usize, t: Table, r: &[u8; RECORD]) -> Result<Table, Fault>
    requires { Shaped t.content }
    ensures fault { result_err result ≡ first_fault place (check 4 (row_form r.now) ∷ check 7 (fits_row (relation_of t.content).columns (row_in (part 56 88 r.now))) ∷ check 8 (ltb (length (relation_of t.content).rows) 16) ∷ []) }
    ensures table { IfOk result (λ o. (table_of o ≡ with_rows ((relation_of t.content).rows ++ (row_in (part 56 88 r.now) ∷ [])) (table_of t)) × Shaped o.content) }
{
    let Some(d) = row_read(r) else {
        return Err(Fault { number: 4, place });
    };
    let content = content_with(place, t.content, d)?;
    Ok(Table { content, ..t })
}

// Rows go into the tables that are there and are no list of their own, so this is no `walk`.
pub fn rows_from(file: &[u8], read: Read<Table, 8>) -> Result<Read<Table, 8>, Fault>
    requires { Going file.now 3 read.reach × AllShaped read.count read.items }
    ensures { MatchResult result
        (λ after. LeadsPast file.now 3 read.reach after.reach (put_tables (tables_of read.count read.items)) (put_tables (tables_of after.count after.items)) × (after.count ≤ 8))
        (λ fault. Stops file.now read.reach fault (put_tables (tables_of read.count read.items))) }
{
    let count = read.count;
    let mut tables = read.items;
    let mut at = read.reach;
    while next_group(file, at) == 3 {
        let r = record_at(file, at.place);
        let Some(place) = find_table(&tables[..count], record_site(r), record_name(r)) else {
            return Err(lost_fault(at.place, r));
        };
        tables[place] = row_taken(at.place, tables[place], r)?;
        at = Reach {
            place: at.place + 1,
            group: 3,
        };
    }
    Ok(Read {
        items: tables,
        count,
        reach: at,
    })
}
