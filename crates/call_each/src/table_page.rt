// The call for the page of a table that all picks leave.
ghost use Rattle.std.specs.Prelude.{◌≡◌, ◌<◌, T, IfErr};
ghost use Rattle.nets.specs.Sound.{sound};
ghost use Rattle.nets.specs.View.{view};
ghost use Rattle.step_bytes.specs.PickBytes.{picks_in};
ghost use Rattle.call_rules.specs.TablePages.{paged};
ghost use Rattle.call_rules.specs.Openings.{Told, number_of, number_told, place_told};
ghost use Rattle.call_rules.specs.Calls.{PageAfterIs};
ghost use Rattle.call_each.specs.PageRefusals.{refused_page};

use call_open::open_file;
use call_rules::{Refused, Reply};
use call_run::run_picks;
use nets::Net;
use page::NotPaged;
use page::tables::page_tables;
use values::Site;

fn refused_page(why: NotPaged) -> Refused
    ensures { result ≡ refused_page why }
{
    match why {
        NotPaged::Unsound => Refused::Unsound,
        NotPaged::NoTable => Refused::NoTable,
        NotPaged::Short(length) => Refused::ShortPage(length),
    }
}

// Of a file and picks that are accepted.
fn page_left(net: Net, picks: &[u8], site: Site, name: u32, out: &mut [u8]) -> Reply
    requires { T (sound (view net)) }
    ensures { Told (paged site name (view net) (picks_in picks.now) out.old) out.old out.new result }
{
    let left = run_picks(net, picks);
    let all_tables = left.tables;
    page_tables(&all_tables[..left.tablecount], site, name, out).map_err(refused_page)
}

pub fn call_page(file: &[u8], picks: &[u8], site: Site, name: u32, out: &mut [u8]) -> Reply
    ensures told { PageAfterIs file.now picks.now site name out.old out.new (number_told result) (place_told result) }
    ensures refused { IfErr result (λ why. (0 < number_of why) × (out.new ≡ out.old)) }
{
    let net = open_file(file, picks)?;
    page_left(net, picks, site, name, out)
}
