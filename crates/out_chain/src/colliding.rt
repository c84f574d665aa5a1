//! The first two different strings with one digest that two claims open.
ghost use Rattle.std.specs.Prelude.{◌≡◌, ◌≢◌, ◌↔◌, ◌⊎◌, ◌&&◌, ◌∷◌, not, true, None, IfSome, bytes_eq};
ghost use Rattle.out_chain.specs.Root.{control_text_of, root_of_claim};
ghost use Rattle.out_chain.specs.Soundness.{is_sound};
ghost use Rattle.out_chain.specs.Collision as collision;

use crate::checking::parts_text;
use digest_core::{Digester, control_text, link_text};
use rd_base::{Claim, Digest32, OpenText, same_digest};

/// Whether two strings differ and their digests, which are given beside them, are one.
pub fn collides(x: &OpenText, of_x: &Digest32, y: &OpenText, of_y: &Digest32) -> bool
    ensures { result ≡ (not (bytes_eq x.now y.now) && bytes_eq of_x.now.0 of_y.now.0) }
{
    x.as_slice() != y.as_slice() && same_digest(of_x, of_y)
}

/// The first two different link strings with one digest at one place of two outputs.
fn link_collision<D: Digester>(d: D, first: &[u8], second: &[u8]) -> Option<(OpenText, OpenText)>
    ensures { result ≡ collision.first_collision D.digest_of
        (collision.links_of D.digest_of first.now) (collision.links_of D.digest_of second.now) }
{
    if first == second {
        return None;
    }
    let mut left = Digest32::ZERO;
    let mut right = Digest32::ZERO;
    'links: for i in 0..first.len().min(second.len()) {
        let x = link_text(&left, first[i]);
        let y = link_text(&right, second[i]);
        left = d.digest(x.as_slice());
        right = d.digest(y.as_slice());
        if collides(&x, &left, &y, &right) {
            return Some((x, y));
        }
    }
    None
}

/// The first two different strings with one digest below the state strings of two claims: their control strings, or the link strings at one
/// place of their outputs, in this order. The first string is opened by the first claim, the second by the second. It takes no memory.
#[tactic(auto, unfolding(crate::specs::Collision::first_collision))]
fn collision_below<D: Digester>(d: D, first: &Claim, second: &Claim) -> Option<(OpenText, OpenText)>
    ensures { result ≡ collision.first_collision D.digest_of
        (control_text_of first.now.ctl ∷ collision.links_of D.digest_of first.now.output)
        (control_text_of second.now.ctl ∷ collision.links_of D.digest_of second.now.output) }
{
    let x = control_text(&first.ctl);
    let y = control_text(&second.ctl);
    let of_x = d.digest(x.as_slice());
    let of_y = d.digest(y.as_slice());
    if collides(&x, &of_x, &y, &of_y) {
        return Some((x, y));
    }
    link_collision(d, first.output.as_slice(), second.output.as_slice())
}

/// The collision of two claims by its definition: for claims of one root, their state strings first, and then the strings below them.
#[tactic(auto, unfolding(crate::specs::Collision::claim_collision, crate::specs::Collision::first_collision))]
fn opened_collision<D: Digester>(
    d: D,
    first: &Claim,
    second: &Claim,
) -> Option<(OpenText, OpenText)>
    ensures { result ≡ collision.claim_collision D.digest_of first.now second.now }
{
    let x = parts_text(d, first.mem, first.regs, &first.ctl);
    let y = parts_text(d, second.mem, second.regs, &second.ctl);
    let of_x = d.digest(x.as_slice());
    let of_y = d.digest(y.as_slice());
    if !same_digest(&of_x, &of_y) {
        return None;
    }
    if x.as_slice() != y.as_slice() {
        return Some((x, y));
    }
    collision_below(d, first, second)
}

/// The collision of two claims of one root: the first two different strings with one digest that they open, their state strings first.
/// What it gives is a collision: two different strings of one digest, the first opened by the first claim and the second by the second
/// (`pair`). For sound claims it is `None` if and only if their roots differ or the claims are equal. It takes no memory.
pub fn claim_collision<D: Digester>(
    d: D,
    first: &Claim,
    second: &Claim,
) -> Option<(OpenText, OpenText)>
    ensures value { result ≡ collision.claim_collision D.digest_of first.now second.now }
    ensures pair { IfSome result (λ pair. collision.IsClaimCollision D.digest_of first.now second.now pair) }
    ensures none { is_sound D.digest_of first.now ≡ true → is_sound D.digest_of second.now ≡ true →
        (result ≡ None) ↔ ((root_of_claim D.digest_of first.now ≢ root_of_claim D.digest_of second.now) ⊎ (first.now ≡ second.now)) }
{
    opened_collision(d, first, second)
}
