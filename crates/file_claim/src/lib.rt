// Claims of the model's bytes held against one another: how much one has of a thing, and which has the smaller amounts.
#![tactic(auto)]

ghost use Rattle.std.specs.Prelude.{◌≡◌, ◌≤◌, length, drop};
ghost use Rattle.semantics.specs.Record.{item_of, claim_in};
ghost use Rattle.semantics.specs.Claim.{amount_of, smaller_amounts};
ghost use Rattle.base_numbers.specs.Item as Item;
ghost use Rattle.file_claim.specs.Laid.{Whole};
ghost use Rattle.file_claim.specs.Amounts.{thing, names_thing, compared_by};

use base_numbers::item;

// Whether the item whose bytes are i names the thing of this kind and number.
fn names(i: &[u8], kind: u32, number: u32) -> bool
    requires { 8 ≤ length i.now }
    ensures { result ≡ names_thing i.now kind number }
{
    (kind == file_fields::u8_at(i, 0)) & (number == file_fields::u16_at(i, 2))
}

// How much the claim at byte `at` has of that thing.
fn amount_of(s: &[u8], at: usize, kind: u32, number: u32) -> u32
    requires { Whole s.now at × (kind ≤ Item.GET_S) }
    ensures { result ≡ amount_of (claim_in (drop at s.now)) (thing kind number) }
{
    let mut left = file_fields::u16_at(s, at);
    let mut rest = &s[at + 2..];
    while 0 < left {
        let i = &rest[..item::BYTES];
        if names(i, kind, number) {
            return file_fields::u32_at(i, 4);
        }
        rest = &rest[item::BYTES..];
        left = left - 1;
    }
    0
}

// Whether one claim has a larger amount of a thing than another, or a smaller one.
#[derive(Drop)]
struct Compared {
    larger: bool,
    smaller: bool,
}

// The claim at byte q with that at b, by the thing that the item i names; a condition names none.
fn compare<'a>(s: &'a [u8], q: usize, b: usize, i: &'a [u8]) -> Compared
    requires { (Whole s.now q × Whole s.now b) × (8 ≤ length i.now) }
    ensures { result ≡ compared_by (claim_in (drop q s.now)) (claim_in (drop b s.now))
        (item_of i.now) }
{
    let kind = file_fields::u8_at(i, 0);
    if item::GET_S < kind {
        return Compared {
            larger: false,
            smaller: false,
        };
    }
    let number = file_fields::u16_at(i, 2);
    let of = amount_of(s, q, kind, number);
    let by = amount_of(s, b, kind, number);
    Compared {
        larger: by < of,
        smaller: of < by,
    }
}

// Whether the claim at byte q has no larger amount than that at b, and at least one smaller. Most who wait for the same stand at
// the same claim, and then no amount is looked at.
pub fn smaller_amounts(s: &[u8], q: usize, b: usize) -> bool
    requires { Whole s.now q × Whole s.now b }
    ensures { result ≡ smaller_amounts (claim_in (drop q s.now)) (claim_in (drop b s.now)) }
{
    if q == b {
        return false;
    }
    let mut left = file_fields::u16_at(s, q);
    let mut rest = &s[q + 2..];
    let mut smaller = false;
    while 0 < left {
        let compared = compare(s, q, b, &rest[..item::BYTES]);
        if compared.larger {
            return false;
        }
        smaller = smaller | compared.smaller;
        rest = &rest[item::BYTES..];
        left = left - 1;
    }
    smaller
}
