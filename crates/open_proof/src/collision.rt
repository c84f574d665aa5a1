//! Collisions of two proofs of one step: two different strings of one digest, one opened by each.
ghost use Rattle.std.specs.Prelude.{◌≡◌, ◌↔◌, [], ◌∷◌, None, IfSome};
ghost use Rattle.rd_base.specs.declared.digest.Digest32.{Digest32};
ghost use Rattle.out_chain.specs.Root.{control_text_of};
ghost use Rattle.out_chain.specs.Collision.{first_collision};
ghost use Rattle.open_proof.specs.Facts as facts;
ghost use Rattle.open_proof.specs.Next as next;
ghost use Rattle.open_proof.specs.Strings.{registers_texts};
ghost use Rattle.open_proof.specs.Collision as collision;
ghost use Rattle.open_proof.specs.Conditions.{LeadsFrom};

mod laws;
mod walking;

use crate::called::called_by;
use crate::collision::walking::{slot_collision, slots_collision, text_collision};
use crate::facts::{Facts, HeldInput, HeldRegisters, facts_of, proofs_are_in_range};
use crate::parts::text_before;
use crate::ways::{fetch_way, named_ways, operand_way, read_way};
use digest_core::{Digester, control_text, registers_text, storage_text};
pub use laws::proofs_from_one_root;
use rd_base::{Ctl, Digest32, OpenText, Proof, Steps};
use std::marker::Brand;
use std::sync::ledger::{Blank, Ledger};

/// What `text_before` gives, by a counter of its own.
fn text_in<D: Digester, L: Ledger>(d: D, facts: &Facts, blank: Blank) -> OpenText
    requires name { blank.name ≡ L.name }
    requires parts { blank.parts ≡ L.parts }
    requires one { L.parts ≡ 1 }
    ensures { result ≡ next.text_before D.digest_of facts.now }
{
    let mut steps = Steps::<L>::new(blank);
    text_before(d, facts, &mut steps)
}

/// The state string that a proof's parts make, uncounted.
fn state_string<D: Digester>(d: D, facts: &Facts) -> OpenText
    ensures { result ≡ next.text_before D.digest_of facts.now }
{
    text_in::<D, Brand>(d, facts, Blank::new(1))
}

/// The state strings of two proofs, if they differ and have one digest.
fn state_collision<D: Digester>(d: D, x: &Facts, y: &Facts) -> Option<(OpenText, OpenText)>
    ensures { result ≡ first_collision D.digest_of (next.text_before D.digest_of x.now ∷ []) (next.text_before D.digest_of y.now ∷ []) }
{
    text_collision(d, state_string(d, x), state_string(d, y))
}

/// The storage strings, if both have one.
#[tactic(auto, using(crate::proofs::CodeLemmas::collision_without, crate::proofs::CodeLemmas::collision_of_none))]
fn storage_collision<D: Digester>(
    d: D,
    x: &Option<HeldInput>,
    x_mem: &Digest32,
    y: &Option<HeldInput>,
    y_mem: &Digest32,
) -> Option<(OpenText, OpenText)>
    ensures { result ≡ first_collision D.digest_of (next.storage_texts x.now x_mem.now.0) (next.storage_texts y.now y_mem.now.0) }
{
    match x {
        Some(t) => match y {
            Some(u) => text_collision(
                d,
                storage_text(x_mem, t.len, &t.root),
                storage_text(y_mem, u.len, &u.root),
            ),
            None => None,
        },
        None => None,
    }
}

/// The registers strings, if both have one.
#[tactic(auto, using(crate::proofs::CodeLemmas::collision_without, crate::proofs::CodeLemmas::collision_of_none))]
fn registers_collision<D: Digester>(
    d: D,
    x: &HeldRegisters,
    y: &HeldRegisters,
) -> Option<(OpenText, OpenText)>
    ensures { result ≡ first_collision D.digest_of (registers_texts x.now) (registers_texts y.now) }
{
    match x {
        HeldRegisters::Whole(xs) => match y {
            HeldRegisters::Whole(ys) => text_collision(d, registers_text(xs), registers_text(ys)),
            HeldRegisters::Opened(_root, _named) => None,
        },
        HeldRegisters::Opened(_root, _named) => None,
    }
}

/// The control strings.
fn control_collision<D: Digester>(d: D, x: &Ctl, y: &Ctl) -> Option<(OpenText, OpenText)>
    ensures { result ≡ first_collision D.digest_of (control_text_of x.now ∷ []) (control_text_of y.now ∷ []) }
{
    text_collision(d, control_text(x), control_text(y))
}

/// The first two different strings of one digest among those of the parts.
fn part_collision<D: Digester>(d: D, x: &Facts, y: &Facts) -> Option<(OpenText, OpenText)>
    ensures { result ≡ collision.parts_collision D.digest_of x.now y.now }
{
    let state = state_collision(d, x, y);
    if state.is_some() {
        return state;
    }
    let storage = storage_collision(d, &x.input_tree, &x.mem, &y.input_tree, &y.mem);
    if storage.is_some() {
        return storage;
    }
    let registers = registers_collision(d, &x.regs, &y.regs);
    if registers.is_some() {
        return registers;
    }
    control_collision(d, &x.ctl, &y.ctl)
}

/// The first two different strings of one digest on the ways of two proofs, in their order.
fn ways_collision<D: Digester>(d: D, x: &Facts, y: &Facts) -> Option<(OpenText, OpenText)>
    ensures { result ≡ collision.all_ways_collision D.digest_of x.now y.now }
{
    let of_x = called_by(x);
    let of_y = called_by(y);
    let fetch = slot_collision(d, &fetch_way(x, &of_x), &fetch_way(y, &of_y));
    if fetch.is_some() {
        return fetch;
    }
    let named = slots_collision(d, &named_ways(x, &of_x), &named_ways(y, &of_y));
    if named.is_some() {
        return named;
    }
    let operand = slot_collision(d, &operand_way(x, &of_x), &operand_way(y, &of_y));
    if operand.is_some() {
        return operand;
    }
    slot_collision(d, &read_way(x, &of_x), &read_way(y, &of_y))
}

/// The first two different strings of one digest that two proofs open.
fn opened_collision<D: Digester>(d: D, x: &Facts, y: &Facts) -> Option<(OpenText, OpenText)>
    ensures { result ≡ collision.opened_collision D.digest_of x.now y.now }
{
    let parts = part_collision(d, x, y);
    if parts.is_some() {
        return parts;
    }
    ways_collision(d, x, y)
}

/// Whether a proof is of a version and its parts open a root.
fn opens_in<D: Digester>(d: D, version: u32, a: &Digest32, facts: &Facts) -> bool
    ensures { result ≡ collision.opens_in D.digest_of version a.now facts.now }
{
    facts.version == version && a.0 == d.digest(state_string(d, facts).as_slice()).0
}

/// The collision of two proofs by its definition.
#[tactic(auto, unfolding(crate::specs::Collision::step_collision))]
fn collision_between<D: Digester>(
    d: D,
    version: u32,
    a: Digest32,
    first: &Proof,
    second: &Proof,
) -> Option<(OpenText, OpenText)>
    ensures { result ≡ collision.step_collision D.digest_of version a (facts.facts_of first.now) (facts.facts_of second.now) }
{
    let x = facts_of(first);
    let y = facts_of(second);
    if opens_in(d, version, &a, &x) && opens_in(d, version, &a, &y) {
        return opened_collision(d, &x, &y);
    }
    None
}

/// Two different strings of one digest, the first opened by the first proof, the second by the second, of two proofs of a version that
/// open the root `a`: the first such pair in the order state string, storage string, registers string, control string, then the strings of
/// the fetched chunk, of the opened registers, of the chunk of data and of the chunk of the input, each from the leaf string up.
///
/// What it gives is a collision, whatever the proofs are (`pair`). `None` if a proof is of another version or doesn't open `a`. For two
/// proofs that lead from `a` it is `None` if and only if the proofs are equal.
pub fn step_collision<D: Digester>(
    d: D,
    version: u32,
    a: Digest32,
    first: &Proof,
    second: &Proof,
) -> Option<(OpenText, OpenText)>
    ensures value { result ≡ collision.step_collision D.digest_of version a (facts.facts_of first.now) (facts.facts_of second.now) }
    ensures pair { IfSome result (λ pair. collision.IsStepCollision D.digest_of (facts.facts_of first.now) (facts.facts_of second.now) pair) }
    ensures none { (b c : Digest32) → LeadsFrom D.digest_of version a (facts.facts_of first.now) b →
        LeadsFrom D.digest_of version a (facts.facts_of second.now) c → (result ≡ None) ↔ (first.now ≡ second.now) }
{
    proofs_are_in_range(first);
    proofs_are_in_range(second);
    collision_between(d, version, a, first, second)
}
