//! The first collision of two strings, of two ways of any tree, and of ways in slots.
ghost use Rattle.std.specs.Prelude.{◌≡◌, [], ◌∷◌};
ghost use Rattle.out_chain.specs.Collision.{first_collision};
ghost use Rattle.open_proof.specs.Ways.{way_texts};
ghost use Rattle.open_proof.specs.Slots.{slot_collision as collision_of_slot, slots_collision as collision_of_slots};

use crate::ways::Way;
use digest_core::Digester;
use out_chain::collides;
use rd_base::OpenText;

/// Two strings, if they differ and have one digest.
pub(crate) fn text_collision<D: Digester>(
    d: D,
    x: OpenText,
    y: OpenText,
) -> Option<(OpenText, OpenText)>
    ensures { result ≡ first_collision D.digest_of (x ∷ []) (y ∷ []) }
{
    let of_x = d.digest(x.as_slice());
    let of_y = d.digest(y.as_slice());
    if !collides(&x, &of_x, &y, &of_y) {
        return None;
    }
    Some((x, y))
}

/// The first two different strings of one digest on two ways, from the leaf strings up.
fn way_collision<D: Digester>(d: D, x: &Way, y: &Way) -> Option<(OpenText, OpenText)>
    ensures { result ≡ first_collision D.digest_of (way_texts D.digest_of x.now) (way_texts D.digest_of y.now) }
{
    let of_x = d.digest(x.text.as_slice());
    let of_y = d.digest(y.text.as_slice());
    if collides(&x.text, &of_x, &y.text, &of_y) {
        return Some((x.text.copy(), y.text.copy()));
    }
    match x.above(&of_x) {
        Some(x_rest) => match y.above(&of_y) {
            Some(y_rest) => way_collision(d, &x_rest, &y_rest),
            None => None,
        },
        None => None,
    }
}

/// The same of two slots; `None` if one of them is empty.
pub(crate) fn slot_collision<D: Digester>(
    d: D,
    x: &Option<Way>,
    y: &Option<Way>,
) -> Option<(OpenText, OpenText)>
    ensures { result ≡ collision_of_slot D.digest_of x.now y.now }
{
    match x {
        Some(v) => match y {
            Some(w) => way_collision(d, v, w),
            None => None,
        },
        None => None,
    }
}

/// The same of two lists of slots, slot by slot.
pub(crate) fn slots_collision<D: Digester>(
    d: D,
    xs: &[Option<Way>],
    ys: &[Option<Way>],
) -> Option<(OpenText, OpenText)>
    ensures { result ≡ collision_of_slots D.digest_of xs.now ys.now }
{
    match xs {
        [] => None,
        [x, more @ ..] => match ys {
            [] => None,
            [y, others @ ..] => match slot_collision(d, x, y) {
                Some(pair) => Some(pair),
                None => slots_collision(d, more, others),
            },
        },
    }
}
