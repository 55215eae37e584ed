// A block of at most 48 samples of a control that waits for nothing.
ghost use Rattle.std.specs.Prelude.{◌≡◌, ◌+◌, ◌*◌, ◌≤◌, ◌<◌, ◌^◌, length};
ghost use Rattle.search.specs.Search.{searched};
ghost use Rattle.look.specs.Marks.{eight_from};
ghost use Rattle.quiet.specs.Parts.{counted_by, is_free_lem, Marked, Calm, Block, Blocks};

use crate::{Walked, count, lanes};
use search::Control;

// So many samples are counted, and the last of them, at this place, is searched.
fn search_last(p: usize, row: &[f32], at: usize, control: Control, n: usize) -> Control
    requires { (p ≤ 10) × (at + 7 * p < length row.now) × (control.wait ≡ None) × (control.sample + n ≤ 2 ^ 63) }
    ensures { result ≡ searched p (eight_from p row.now at) (counted_by n control) }
{
    let counted = count::count(control, n);
    search::searched(p as u8, counted, lanes::eight(p, row, at))
}

fn is_free(p: usize, control: Control) -> bool
    requires { p ≤ 10 }
    ensures { result ≡ is_free_lem p control }
{
    match control.wait {
        None => crate::goes_on(p, control),
        Some(_) => false,
    }
}

// Nothing is held and no frame's burst matches: of the samples that set the timer the last one counts.
fn set_timer_last(
    p: usize,
    row: &[f32],
    marks: &[u32; 48],
    at: usize,
    n: usize,
    control: Control,
) -> Control
    requires { Block p row.now at n control × Marked p row.now at n marks.now × Calm p row.now at n control }
    ensures { Blocks p row.now at n control n result }
{
    let j = lanes::last_carrier(p, row, marks, at, n);
    if j == 0 {
        return count::count(control, n);
    }
    let place = at + (j - 1);
    let set = search_last(p, row, place, control, j);
    let rest = n - j;
    if rest == 0 {
        return set;
    }
    count::count(set, rest)
}

// The samples that are marked, and all while a candidate is held, are searched one after the other; those between are only counted.
fn search_marked(
    p: usize,
    row: &[f32],
    marks: &[u32; 48],
    at: usize,
    n: usize,
    control: Control,
) -> Walked
    requires { Block p row.now at n control × Marked p row.now at n marks.now }
    ensures { Blocks p row.now at n control result.fed result.control }
{
    let mut now = control;
    let mut fed: usize = 0;
    // A turn goes on to the next marked sample, so no range gives the next one's place.
    while fed < n {
        if !is_free(p, now) {
            return Walked { fed, control: now };
        }
        let held = search::is_held(now.candidate);
        let next = lanes::next_marked(marks, fed, n, held);
        if next == n {
            return Walked {
                fed: n,
                control: count::count(now, n - fed),
            };
        }
        let place = at + next;
        let more = next - fed + 1;
        now = search_last(p, row, place, now, more);
        fed = next + 1;
    }
    Walked { fed, control: now }
}

// With nothing held, faint values are only counted, and so are samples of which none is marked.
pub(crate) fn walk_block(p: usize, row: &[f32], at: usize, n: usize, control: Control) -> Walked
    requires { Block p row.now at n control }
    ensures { Blocks p row.now at n control result.fed result.control }
{
    let end = at + (7 * p + 48);
    let held = search::is_held(control.candidate);
    if !held && look::is_faint(&row[at..end]) {
        return Walked {
            fed: n,
            control: count::count(control, n),
        };
    }
    let marks = look::marks(p, &row[at..end]);
    if held | lanes::has_mark(&marks, 2) {
        return search_marked(p, row, &marks, at, n, control);
    }
    let last = if lanes::has_mark(&marks, 1) {
        set_timer_last(p, row, &marks, at, n, control)
    } else {
        count::count(control, n)
    };
    Walked {
        fed: n,
        control: last,
    }
}
