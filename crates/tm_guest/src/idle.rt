// Reads of flags that have to be read again.
ghost use Rattle.std.specs.Prelude.{◌≡◌, ◌≤◌, ◌<◌, ◌&&◌, ◌==◌, not};
ghost use Rattle.tm_base.specs.Lists.{any, count_from};
ghost use Rattle.tm_plan_map.specs.Map.{flag_at};
ghost use Rattle.tm_world.specs.Work.{gets_less};

use tm_plan_map::flag_addr;
use tm_table::Access;

/// Whether an access reads the flag of one of `harts` harts but `h`, and finds less than `most`.
pub fn finds_less(access: Access, h: u32, harts: u32, most: u64) -> bool
    requires { harts ≤ 16 }
    ensures { result ≡ any (λ g. not (g == h) && gets_less (flag_at g) most access) (count_from 0 harts) }
{
    for g in 0..harts {
        if g != h && gets(access, flag_addr(g), most) {
            return true;
        }
    }
    false
}

/// Whether an access reads the 8 bytes at `flag`, and finds less than `most`.
fn gets(access: Access, flag: u64, most: u64) -> bool
    ensures { result ≡ gets_less flag most access }
{
    match access {
        Access::Read { addr, width, value } => addr == flag && width == 8 && value < most,
        Access::Quiet | Access::Write { .. } => false,
    }
}
