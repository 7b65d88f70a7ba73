// The call for the tables that all picks leave.
ghost use Rattle.std.specs.Prelude.{◌≡◌, ◌<◌, T, IfErr};
ghost use Rattle.nets.specs.Sound.{sound};
ghost use Rattle.nets.specs.View.{view};
ghost use Rattle.call_rules.specs.Layouts.{tables_put};
ghost use Rattle.step_bytes.specs.PickBytes.{picks_in};
ghost use Rattle.call_rules.specs.Replies.{if_room};
ghost use Rattle.call_rules.specs.Openings.{Told, number_of, number_told, place_told};
ghost use Rattle.call_rules.specs.Calls.{TablesIs};

use call_open::open_file;
use call_rules::{Refused, Reply};
use call_run::run_picks;
use nets::Net;
use write::tables::{tables_size, write_tables};

// Of a file and picks that are accepted.
fn tables_left(net: Net, picks: &[u8], out: &mut [u8]) -> Reply
    requires { T (sound (view net)) }
    ensures { Told (if_room (tables_put (view net) (picks_in picks.now)) out.old) out.old out.new result }
{
    let left = run_picks(net, picks);
    let all_tables = left.tables;
    let tables = &all_tables[..left.tablecount];
    let size = tables_size(tables);
    if out.len() < size {
        return Err(Refused::Short(size));
    }
    let _ = write_tables(out, tables);
    Ok(size)
}

pub fn call_tables(file: &[u8], picks: &[u8], out: &mut [u8]) -> Reply
    ensures told { TablesIs file.now picks.now out.old out.new (number_told result) (place_told result) }
    ensures refused { IfErr result (λ why. (0 < number_of why) × (out.new ≡ out.old)) }
{
    let net = open_file(file, picks)?;
    tables_left(net, picks, out)
}
