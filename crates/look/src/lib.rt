// Which of 48 samples are worth a search: at the others no burst can match. The filtered values lie in a row, a place a sample, and what is
// asked of 48 samples is asked of them side by side: the compiler makes vector code of loops over arrays of 48 that nothing leaves early.
#![tactic(auto)]

ghost use Rattle.std.specs.Prelude.{◌≡◌, [], ◌∷◌};
ghost use Rattle.decode.specs.Parts.{values_of};
ghost use Rattle.look.specs.Marks.{upper, lower, top_of, bottom_of, mark_of, MarksSays};
ghost use Rattle.look.specs.Rows.{IsInRangeSays, IsFaintSays};

// Whether the correlator takes each value of the row.
#[tactic(auto, unfolding(numbers::specs::Below::all_below, crate::specs::Rows::row_in_range))]
pub fn is_in_range(row: &[f32]) -> bool
    ensures { IsInRangeSays row.now result }
{
    let mut all = true;
    // No `all`, which ends early: so the values are compared several at a time.
    for value in row {
        all &= decode::in_range(*value);
    }
    all
}

// Values below it in size have a gain below 16.0, whichever eight are taken.
const FAINT: f32 = 15.0;

// Whether all values of the row are so small that no burst matches.
#[tactic(auto, unfolding(numbers::specs::Below::all_below, crate::specs::Rows::row_faint))]
pub fn is_faint(row: &[f32]) -> bool
    ensures { IsFaintSays row.now result }
{
    let mut all = true;
    // No `all`, as above.
    for value in row {
        all &= (*value < FAINT) & (-FAINT < *value);
    }
    all
}

// Of numbers: `numbers::max` asks besides whether they are some.
fn upper(a: f32, b: f32) -> f32
    ensures { result ≡ upper a b }
{
    if a < b { b } else { a }
}

fn lower(a: f32, b: f32) -> f32
    ensures { result ≡ lower a b }
{
    if b < a { b } else { a }
}

#[tactic(auto, unfolding(crate::specs::Marks::top_of))]
fn top(v0: f32, v1: f32, v2: f32, v3: f32, v4: f32, v5: f32, v6: f32, v7: f32) -> f32
    ensures { result ≡ top_of (values_of (v0 ∷ v1 ∷ v2 ∷ v3 ∷ v4 ∷ v5 ∷ v6 ∷ v7 ∷ [])) 7 }
{
    upper(
        upper(
            upper(upper(upper(upper(upper(v0, v1), v2), v3), v4), v5),
            v6,
        ),
        v7,
    )
}

#[tactic(auto, unfolding(crate::specs::Marks::bottom_of))]
fn bottom(v0: f32, v1: f32, v2: f32, v3: f32, v4: f32, v5: f32, v6: f32, v7: f32) -> f32
    ensures { result ≡ bottom_of (values_of (v0 ∷ v1 ∷ v2 ∷ v3 ∷ v4 ∷ v5 ∷ v6 ∷ v7 ∷ [])) 7 }
{
    lower(
        lower(
            lower(lower(lower(lower(lower(v0, v1), v2), v3), v4), v5),
            v6,
        ),
        v7,
    )
}

// Of eight values, the oldest first: 2 where a frame's burst may match, 1 where one of the other two may, and 0 where none can, by the gain
// and by each value's side of the shift.
fn mark(v0: f32, v1: f32, v2: f32, v3: f32, v4: f32, v5: f32, v6: f32, v7: f32) -> u32
    ensures { result ≡ mark_of (values_of (v0 ∷ v1 ∷ v2 ∷ v3 ∷ v4 ∷ v5 ∷ v6 ∷ v7 ∷ [])) }
{
    let a0 = v0 + 0.0;
    let a1 = v1 + 0.0;
    let a2 = v2 + 0.0;
    let a3 = v3 + 0.0;
    let a4 = v4 + 0.0;
    let a5 = v5 + 0.0;
    let a6 = v6 + 0.0;
    let a7 = v7 + 0.0;
    let high = top(a0, a1, a2, a3, a4, a5, a6, a7);
    let low = bottom(a0, a1, a2, a3, a4, a5, a6, a7);
    let gain = (high - low) / 2.0;
    let shift = (high + low) / 2.0;
    let u0 = shift < a0;
    let u1 = shift < a1;
    let u2 = shift < a2;
    let u3 = shift < a3;
    let u4 = shift < a4;
    let u5 = shift < a5;
    let u6 = shift < a6;
    let u7 = shift < a7;
    let lsf = u0 & u1 & u2 & u3 & !u4 & !u5 & u6 & !u7;
    let bert = !u0 & u1 & !u2 & !u3 & u4 & u5 & u6 & u7;
    let stream = !u0 & !u1 & !u2 & !u3 & u4 & u5 & !u6 & u7;
    let packet = u0 & !u1 & u2 & u3 & !u4 & !u5 & !u6 & !u7;
    let preamble = u0 & !u1 & u2 & !u3 & u4 & !u5 & u6 & !u7;
    let end = u0 & u1 & u2 & u3 & u4 & u5 & !u6 & u7;
    let loud = !(gain < decode::SYNC_MIN_GAIN);
    let frame = loud & (lsf | bert | stream | packet);
    let carrier = loud & (preamble | end);
    if frame {
        2
    } else if carrier {
        1
    } else {
        0
    }
}

// The marks of 48 samples, p samples a symbol: sample k has the eight values from the row's place k on, p places apart. Of a row that is too
// short for them, or at more samples a symbol than a rate has, each is worth a search.
pub fn marks(p: usize, row: &[f32]) -> [u32; 48]
    ensures { MarksSays p row.now result }
{
    let mut found = [2u32; 48];
    if 10 < p {
        return found;
    }
    if row.len() < 7 * p + 48 {
        return found;
    }
    let s2 = 2 * p;
    let s3 = 3 * p;
    let s4 = 4 * p;
    let s5 = 5 * p;
    let s6 = 6 * p;
    let s7 = 7 * p;
    for k in 0..48 {
        found[k] = mark(
            row[k],
            row[k + p],
            row[k + s2],
            row[k + s3],
            row[k + s4],
            row[k + s5],
            row[k + s6],
            row[k + s7],
        );
    }
    found
}
