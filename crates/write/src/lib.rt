// Writing a net: its tables as records at the start of a lent buffer.
#![tactic(auto)]

ghost use Rattle.files.specs.Engine.{WriteIs};

use crate::tables::write_tables;
use files::NotWritten;
use net_sound::whole::sound_net;
use nets::Net;

pub mod tables;

// The length written, or why nothing is; what follows the records stays, and after a refusal all does.
pub fn write(net: Net, out: &mut [u8]) -> Result<usize, NotWritten>
    ensures { WriteIs net out.old out.new result }
{
    if !sound_net(&net) {
        return Err(NotWritten::Unsound);
    }
    write_tables(out, &net.tables[..net.tablecount])
}
