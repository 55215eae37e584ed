// What a program says on standard error when it stops.
#![tactic(auto)]

ghost use Rattle.telling.specs.Texts.{TellSays};

use house::Text;
use std::io::Write;

// Tells a text that lies within its bytes, and says whether it does: of one that is said to be longer nothing is written. A write that fails has no place left to be told.
pub fn tell(errors: &mut impl Write, text: Text) -> bool
    ensures { TellSays text result }
{
    let bytes = text.bytes;
    let length = text.length;
    if length > bytes.len() {
        return false;
    }
    let _ = errors.write_all(&bytes[..length]);
    true
}
