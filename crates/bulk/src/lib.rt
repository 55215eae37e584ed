// The filter in blocks: 48 tap sums at once, side by side, each the single sum in its fixed order.
#![tactic(auto)]

ghost use Rattle.bulk.specs.Sums.{TapSumsSays, IsStillSays};

// The tap sums of the 48 windows that begin at the row's first 48 places. Each window has as many values as there are taps, so the row has
// 47 more: from a shorter one no sum is made, and all are 0.0. The sums lie in one array and a loop adds one tap's product to each: the
// compiler makes vector code of that.
pub fn tap_sums(table: &[f32], row: &[f32]) -> [f32; 48]
    ensures { TapSumsSays table.now row.now result }
{
    let mut sums = [0.0f32; 48];
    if numbers::saturating_sub(row.len(), 47) < table.len() {
        return sums;
    }
    for (i, tap) in table.iter().enumerate() {
        for k in 0..48 {
            sums[k] += *tap * row[k + i];
        }
    }
    sums
}

// Whether all values are zeros, of either sign: a row of them has no sum but 0.0, and none need be made.
pub fn is_still(row: &[f32]) -> bool
    ensures { IsStillSays row.now result }
{
    let mut all = true;
    // No `all`, which ends early: so the values are compared several at a time.
    for value in row {
        all &= *value == 0.0;
    }
    all
}
