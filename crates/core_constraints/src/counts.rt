ghost use Rattle.std.specs.Prelude.{◌≡◌, ◌+◌, ◌<◌, ◌^◌, if◌then◌else◌};

/// One more, if so.
pub(crate) fn counted(count: u64, is_one: bool) -> u64
    requires { count < 2 ^ 63 }
    ensures { result ≡ (if is_one then count + 1 else count) }
{
    if is_one { count + 1 } else { count }
}
