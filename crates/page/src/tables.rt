// The page of one table of a sound net.
ghost use Rattle.std.specs.Prelude.{◌≡◌, map, T};
ghost use Rattle.std.specs.List.{list_all};
ghost use Rattle.nets.specs.Tables.{table_at};
ghost use Rattle.nets.specs.Sound.{table_ok};
ghost use Rattle.nets.specs.View.{table_of};
ghost use Rattle.page_rules.specs.Pages.{page_for, page_answer, buffer_after};
ghost use Rattle.page.specs.PageCall.{answer_of};

use crate::NotPaged;
use nets::Table;
use nets::tables::find_table;
use page_lines::lines::{page_size, put_page};
use values::Site;

pub fn page_tables(
    tables: &[Table],
    site: Site,
    name: u32,
    out: &mut [u8],
) -> Result<usize, NotPaged>
    requires { T (list_all table_ok (map table_of tables.now)) }
    ensures { (answer_of result ≡ page_answer (page_for (table_at site name (map table_of tables.now)) out.old)) × (out.new ≡ buffer_after out.old (page_for (table_at site name (map table_of tables.now)) out.old)) }
{
    let Some(place) = find_table(tables, site, name) else {
        return Err(NotPaged::NoTable);
    };
    let content = tables[place].content;
    let size = page_size(content);
    if out.len() < size {
        return Err(NotPaged::Short(size));
    }
    put_page(&mut out[0..size], content);
    Ok(size)
}
