// What every call with picks begins with: the length of the picks is judged, then the file is loaded.
#![tactic(auto)]

ghost use Rattle.call_rules.specs.Openings.{OpenIs};

use call_rules::Refused;
use load::load;
use nets::Net;

pub fn open_file(file: &[u8], picks: &[u8]) -> Result<Net, Refused>
    ensures { OpenIs file.now picks.now result }
{
    if picks.len() % 2 != 0 {
        return Err(Refused::OddPicks);
    }
    let loaded = load(file);
    loaded.verdict?;
    Ok(loaded.net)
}
