// Which calls go to a seat's receiver.
ghost use Rattle.std.specs.Prelude.{◌≡◌};
ghost use Rattle.library_desk.specs.Passage.{turn_code};

// 0 where the call goes on; 119 for a closed seat; 101 for a flag that is neither 0 nor 1.
pub fn turn_away(flag: u64) -> u32
    ensures { result ≡ turn_code flag }
{
    if flag == 0 {
        return 119;
    }
    if 1 < flag {
        return 101;
    }
    0
}
