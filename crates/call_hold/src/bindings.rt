// Bindings as records: sixteen variables, bound or not, and two table variables with their rows.
ghost use Rattle.std.specs.Prelude.{◌≡◌, [], ◌∷◌, map, ◌+◌, ◌*◌, ◌≤◌, length};
ghost use Rattle.values.specs.Operands.{values_in};
ghost use Rattle.rows.specs.View.{relation_of};
ghost use Rattle.nets.specs.View.{variable_of, bindings_of};
ghost use Rattle.value_bytes.specs.Bytes.{end_to_end};
ghost use Rattle.call_rules.specs.Moments.{values_record, variable_records, relation_records, bindings_records};
ghost use Rattle.call_hold.specs.Holdings.{VariableShaped, RelationsShaped, rows_given, records_given};

use crate::records::{relation_head, values_record};
use nets::TableVariable;
use record_bytes::RECORD;
use rows::{Relation, Row};
use values::{Value, Vars};

// Where the variables end.
const VARIABLES_END: usize = 1664;

// ---- variables

// A row that begins with the value.
fn row_of(value: Value) -> Row
    ensures { result.cells ≡ value ∷ value ∷ value ∷ value ∷ [] }
{
    Row { cells: [value; 4] }
}

// A variable has one value or none.
fn variable_record(number: u8, slot: Option<Value>) -> [u8; RECORD]
    ensures { result ≡ values_record 66 number (values_in (slot ∷ [])) }
{
    match slot {
        None => values_record(66, number, row_of(Value::Int(0)), 0),
        Some(value) => values_record(66, number, row_of(value), 1),
    }
}

fn put_variables(out: &mut [u8], vars: Vars)
    requires { length out.old ≡ 1664 }
    ensures { out.new ≡ end_to_end (variable_records vars) }
{
    for i in 0..16 {
        out[i * RECORD..i * RECORD + RECORD].copy_from_slice(&variable_record(i as u8, vars[i]));
    }
}

// ---- table variables

// How many rows a table variable gives out: one that is unbound none.
fn rows_given(v: TableVariable) -> usize
    requires { VariableShaped v }
    ensures { (result ≡ rows_given v) × (result ≤ 16) }
{
    match v {
        Some(content) => content.count,
        None => 0,
    }
}

// The rows of a table variable.
fn put_rows(out: &mut [u8], number: u8, content: Relation)
    requires { (content.count ≤ 16) × (content.columns ≤ 4) × (length out.old ≡ content.count * 104) }
    ensures { out.new ≡ end_to_end (map (values_record 68 number) (relation_of content).rows) }
{
    for i in 0..content.count {
        let record = values_record(68, number, content.rows[i], content.columns);
        out[i * RECORD..i * RECORD + RECORD].copy_from_slice(&record);
    }
}

fn put_relation(out: &mut [u8], number: u8, v: TableVariable)
    requires { VariableShaped v × (length out.old ≡ 104 + rows_given v * 104) }
    ensures { out.new ≡ end_to_end (relation_records number (variable_of v)) }
{
    let Some(content) = v else {
        out.copy_from_slice(&relation_head(number, 0, &[]));
        return;
    };
    let end = RECORD + content.count * RECORD;
    let kinds = &content.kinds[..content.columns];
    out[0..RECORD].copy_from_slice(&relation_head(number, 1, kinds));
    put_rows(&mut out[RECORD..end], number, content);
}

// ---- both

// How many records bindings have.
pub fn bindings_records(relations: [TableVariable; 2]) -> usize
    requires { RelationsShaped relations }
    ensures { (result ≡ records_given relations) × (result ≤ 50) }
{
    18 + rows_given(relations[0]) + rows_given(relations[1])
}

pub fn put_bindings(out: &mut [u8], vars: Vars, relations: [TableVariable; 2])
    requires { RelationsShaped relations × (length out.old ≡ records_given relations * 104) }
    ensures { out.new ≡ end_to_end (bindings_records (bindings_of vars relations)) }
{
    let [first, second] = relations;
    let middle = VARIABLES_END + (1 + rows_given(first)) * RECORD;
    let end = middle + (1 + rows_given(second)) * RECORD;
    put_variables(&mut out[0..VARIABLES_END], vars);
    put_relation(&mut out[VARIABLES_END..middle], 0, first);
    put_relation(&mut out[middle..end], 1, second);
}
