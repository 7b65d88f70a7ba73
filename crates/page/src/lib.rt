// A table's page, at the start of a lent buffer.
#![tactic(auto)]

ghost use Rattle.page.specs.PageCall.{PageIs};

use crate::tables::page_tables;
use net_sound::whole::sound_net;
use nets::Net;
use values::Site;

pub mod tables;

// Why there is no page; with a buffer that is too short, the length that is needed.
#[derive(Clone, Copy, PartialEq, Eq)]
pub enum NotPaged {
    Unsound,
    NoTable,
    Short(usize),
}

// The page's length, or why there is none. What follows the page stays, and after a refusal every byte does.
pub fn page(net: Net, site: Site, name: u32, out: &mut [u8]) -> Result<usize, NotPaged>
    ensures { PageIs net site name out.old out.new result }
{
    if !sound_net(&net) {
        return Err(NotPaged::Unsound);
    }
    page_tables(&net.tables[..net.tablecount], site, name, out)
}
