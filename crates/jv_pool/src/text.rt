ghost use Rattle.std.specs.Prelude.{◌≡◌, ◌≤◌, length};
ghost use Rattle.jv_pool.specs.Steps.PoolReading.{is_one, goes_on, is_two, is_three, unit_len, is_spelled};

/// Whether this byte spells a unit alone.
fn is_one(a: u8) -> bool
    ensures { result ≡ is_one a }
{
    1 <= a && a < 128
}

/// Whether this byte goes on with a unit.
fn goes_on(b: u8) -> bool
    ensures { result ≡ goes_on b }
{
    128 <= b && b < 192
}

/// Whether these bytes spell a unit of two.
fn is_two(a: u8, b: u8) -> bool
    ensures { result ≡ is_two a b }
{
    goes_on(b) && ((a == 192 && b == 128) || (194 <= a && a < 224))
}

/// Whether these bytes spell a unit of three.
fn is_three(a: u8, b: u8, c: u8) -> bool
    ensures { result ≡ is_three a b c }
{
    (goes_on(b) && goes_on(c)) && ((a == 224 && 160 <= b) || (225 <= a && a < 240))
}

/// The length of the unit's spelling that the bytes begin with, or 0 where they begin with none.
#[tactic(auto, unfolding(crate::specs::Steps::PoolReading::unit_len))]
fn unit_len(bytes: &[u8]) -> usize
    ensures len { result ≡ unit_len bytes.now }
    ensures within { result ≤ length bytes.now }
{
    let Some((a, rest)) = bytes.split_first() else {
        return 0;
    };
    if is_one(*a) {
        return 1;
    }
    let Some((b, rest)) = rest.split_first() else {
        return 0;
    };
    if is_two(*a, *b) {
        return 2;
    }
    match rest.first() {
        Some(c) if is_three(*a, *b, *c) => 3,
        _ => 0,
    }
}

/// Whether the bytes are modified UTF-8 (JVMS 4.4.7), in which each unit has its shortest spelling.
pub fn is_spelled(bytes: &[u8]) -> bool
    ensures { result ≡ is_spelled bytes.now }
{
    let mut rest = bytes;
    while !rest.is_empty() {
        let len = unit_len(rest);
        if len == 0 {
            return false;
        }
        let (_unit, after) = rest.split_at(len);
        rest = after;
    }
    true
}
