// Samples that are only counted: the turn of the last of them is the turn of all.
ghost use Rattle.std.specs.Prelude.{◌≡◌, ◌+◌, ◌^◌, ◌≤◌, ◌<◌};
ghost use Rattle.search.specs.Turn.{waiting_on};
ghost use Rattle.quiet.specs.Parts.{turn_control, counted_by, nearer_by};

use search::{Control, Turn, Waiting};

fn control_of(turn: Turn) -> Control
    ensures { result ≡ turn_control turn }
{
    match turn {
        Turn::Rest(control) | Turn::Offer { control, .. } | Turn::Look(control) => control,
    }
}

// With no wait.
pub(crate) fn count(control: Control, n: usize) -> Control
    requires { (control.wait ≡ None) × (control.sample + n ≤ 2 ^ 63) }
    ensures { result ≡ counted_by n control }
{
    let number = control.sample + (n as u64);
    let turn = search::turn_of(control, number);
    control_of(turn)
}

// In a wait that is longer.
pub(crate) fn rest(control: Control, waiting: Waiting, n: usize) -> Control
    requires { (1 ≤ n) × (n < waiting.left) × (control.sample + n ≤ 2 ^ 63) }
    ensures { result ≡ waiting_on (nearer_by n waiting) (counted_by n control) }
{
    let number = control.sample + (n as u64);
    let before = (n - 1) as u16;
    let near = Control {
        wait: Some(Waiting {
            left: waiting.left - before,
            ..waiting
        }),
        ..control
    };
    let turn = search::turn_of(near, number);
    control_of(turn)
}
