// Values within ±size. A not-a-number is within no bounds.
ghost use Rattle.std.specs.Prelude.{◌≡◌, ℕ, length, get_or};
ghost use Rattle.std.specs.Float.{nan};
ghost use Rattle.numbers.specs.Below.{all_below};
ghost use Rattle.modulator.specs.Frame.{within};

fn within(size: f32, value: f32) -> bool
    ensures { result ≡ within size value }
{
    (-size <= value) & (value <= size)
}

pub(crate) fn all_within(size: f32, values: &[f32]) -> bool
    ensures { result ≡ all_below (length values.now) (λ (i : ℕ). within size (get_or values.now i nan)) }
{
    values.iter().all(|value| within(size, *value))
}
