// Looking for an entry of a table by the camera or the grant that it is of. An index is how many entries stand before
// the one that is found.
ghost use Rattle.std.specs.Prelude.{◌≡◌, ◌<◌, ◌≤◌, Bool, find, length, position, IfSome};
ghost use Rattle.model.specs.Lookups.{is_member, claim_of, transmission_of, numbered, alarm_of};
ghost use Rattle.model.specs.Words.{place_of_first};

use crate::tables::{Member, Transmission};
use precedence::alarms::Alarm;
use precedence::claims::Claim;

// A camera, by its SSRC, as what an entry is of.
#[derive(Clone, Copy, Debug, PartialEq, Eq)]
pub struct OfCamera(pub u32);

// A grant, by its number, as what an entry is of.
#[derive(Clone, Copy, Debug, PartialEq, Eq)]
pub struct OfGrant(pub u16);

// An entry that is looked up by a key.
pub trait Keyed<K> {
    ghost has: { Self → K → Bool };

    // Whether the entry is of what the key says.
    fn has(entry: &Self, key: &K) -> bool
        ensures test { result ≡ has entry.now key.now };
}

impl Keyed<OfCamera> for Member {
    ghost has = { λ member key. is_member key.0 member };

    fn has(member: &Member, key: &OfCamera) -> bool {
        member.camera == key.0
    }
}

impl Keyed<OfCamera> for Claim {
    ghost has = { λ claim key. claim_of key.0 claim };

    fn has(claim: &Claim, key: &OfCamera) -> bool {
        claim.camera == key.0
    }
}

impl Keyed<OfCamera> for Transmission {
    ghost has = { λ transmission key. transmission_of key.0 transmission };

    fn has(transmission: &Transmission, key: &OfCamera) -> bool {
        transmission.camera == key.0
    }
}

impl Keyed<OfGrant> for Transmission {
    ghost has = { λ transmission key. numbered key.0 transmission };

    fn has(transmission: &Transmission, key: &OfGrant) -> bool {
        transmission.number == key.0
    }
}

impl Keyed<OfGrant> for Alarm {
    ghost has = { λ alarm key. alarm_of key.0 alarm };

    fn has(alarm: &Alarm, key: &OfGrant) -> bool {
        alarm.grant == key.0
    }
}

// A test of entries of one kind: what a caller looks for that no key of this crate says.
pub trait Test {
    type Item;

    ghost passes: { Self → Self.Item → Bool };

    fn passes(&self, item: &Self::Item) -> bool
        ensures test { result ≡ passes self.now item.now };
}

// Every test is a key of what it tests.
impl<T, K: Test<Item = T>> Keyed<K> for T {
    ghost has = { λ entry key. K.Test.passes key entry };

    fn has(entry: &T, key: &K) -> bool {
        key.passes(entry)
    }
}

// The first that has the key, if any.
pub fn first_with<T: Keyed<K> + Copy, K>(entries: &[T], key: &K) -> Option<T>
    ensures item { result ≡ find (λ entry. T.has entry key.now) entries.now }
{
    entries.iter().copied().find(|entry| T::has(entry, key))
}

// The index of the first that has the key, if any.
pub fn index_of_first<T: Keyed<K>, K>(entries: &[T], key: &K) -> Option<usize>
    ensures index { result ≡ position (λ entry. T.has entry key.now) entries.now }
    ensures within { IfSome result (λ index. index < length entries.now) }
{
    entries.iter().position(|entry| T::has(entry, key))
}

// The place of the first that has the key, from 1, if any.
pub fn place_of_first<T: Keyed<K>, K>(entries: &[T], key: &K) -> Option<usize>
    ensures place { result ≡ place_of_first (λ entry. T.has entry key.now) entries.now }
    ensures within { IfSome result (λ place. (0 < place) × (place ≤ length entries.now)) }
{
    let index = index_of_first(entries, key)?;
    Some(index + 1)
}
