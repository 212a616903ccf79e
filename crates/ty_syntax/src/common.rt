//! What two texts begin and end with alike.
ghost use Rattle.std.specs.Prelude.{◌≡◌, ◌+◌, ◌-◌, ◌≤◌, ◌&&◌, true, length, take, drop, IsTrue};
ghost use Rattle.std.specs.Str.{IsCharBoundary};
ghost use Rattle.ty_syntax.specs.Text.{is_place};

use crate::text::is_place;

/// How many bytes two texts begin with alike, up to a character of both.
pub(crate) fn common_front(one: &str, other: &str) -> usize
    ensures same { take result one.now ≡ take result other.now }
    ensures place { is_place one.now result ≡ true }
    ensures boundary { IsCharBoundary other.now result }
    ensures within { result ≤ length one.now }
    ensures within_other { result ≤ length other.now }
{
    let mut front = same_front(one.as_bytes(), other.as_bytes());
    while !are_places(one, front, other, front) {
        front -= 1;
    }
    front
}

/// How many bytes two texts end with alike, from a character of both on, and behind a front of both.
pub(crate) fn common_back(one: &str, other: &str, front: usize) -> usize
    requires one { front ≤ length one.now }
    requires other { front ≤ length other.now }
    ensures same { drop (length one.now - result) one.now ≡ drop (length other.now - result) other.now }
    ensures place { is_place one.now (length one.now - result) ≡ true }
    ensures boundary { IsCharBoundary other.now (length other.now - result) }
    ensures within { front + result ≤ length one.now }
    ensures within_other { front + result ≤ length other.now }
{
    let mut back = same_back(&one.as_bytes()[front..], &other.as_bytes()[front..]);
    while !are_places(one, one.len() - back, other, other.len() - back) {
        back -= 1;
    }
    back
}

/// Whether a text has an offset and another has another, and neither lies inside a character.
fn are_places(one: &str, at: usize, other: &str, there: usize) -> bool
    ensures value { result ≡ (is_place one.now at && is_place other.now there) }
    ensures boundary { IsTrue result → IsCharBoundary other.now there }
{
    is_place(one, at) && is_place(other, there)
}

fn same_front(one: &[u8], other: &[u8]) -> usize
    ensures same { take result one.now ≡ take result other.now }
    ensures within { result ≤ length one.now }
    ensures within_other { result ≤ length other.now }
{
    let most = one.len().min(other.len());
    for at in 0..most {
        if one[at] != other[at] {
            return at;
        }
    }
    most
}

fn same_back(one: &[u8], other: &[u8]) -> usize
    ensures same { drop (length one.now - result) one.now ≡ drop (length other.now - result) other.now }
    ensures within { result ≤ length one.now }
    ensures within_other { result ≤ length other.now }
{
    let most = one.len().min(other.len());
    for back in 0..most {
        if one[one.len() - 1 - back] != other[other.len() - 1 - back] {
            return back;
        }
    }
    most
}
