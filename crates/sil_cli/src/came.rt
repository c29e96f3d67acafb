// What comes of a command before the line of its ending.
ghost use Rattle.std.specs.Prelude.{◌≡◌};

use command_report::Ending;
use sil_base::Put;

/// What came of a command: how it ended, and the first put of its lines that was not Ok.
#[derive(Debug, Drop)]
pub struct Came {
    pub ending: Ending,
    pub put: Put,
}

impl Came {
    /// What came of a command that told no lines before that of its ending.
    pub fn quietly(ending: Ending) -> Came
        ensures ending { result.ending ≡ ending }
        ensures put { result.put ≡ Put.Ok }
    {
        Came {
            ending,
            put: Put::Ok,
        }
    }
}
