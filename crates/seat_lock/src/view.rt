//! What a seat's view holds, the rule of the lock's table, and the kinds of step that keep it.
//!
//! | Kind of step | Where | What it does |
//! |---|---|---|
//! | split | word 0, loaded | the first seat has one more out; the new view has seen the same |
//! | join | word 0, loaded | the first seat takes the longer list and the other's receipts and has one fewer out; the other view is spent |
//! | draw a ticket | word 0, raised | the view gains its number |
//! | look at the number served | word 1, loaded | the view learns it; if it is its ticket, the turn begins and the slot is lent |
//! | take the value, give it back | slot 0, exchanged | no view changes |
//! | end a turn with an entry, or without one | word 1, raised | the view loses its ticket and has seen the turn, with a receipt for the entry; the slot is at home again |
use crate::logged::Logged;
use atomic_table::{Join, Play, Split, TableRule};
use std::marker::{Model, PhantomData};
use std::snapshot::Snapshot;

/// What a seat knows. It has no bytes, and no program makes one: contracts alone see what it holds (`specs/View.antt`).
pub struct View<H> {
    marker: PhantomData<H>,
}

impl<H> Model for View<H> {
    ghost use Rattle.seat_lock.specs.View.{View};
    ghost use Rattle.seat_lock.specs.Views.{spent_view};

    ghost Value = { View H };

    ghost view = { λ _. spent_view };
}

/// The rule that holds between any two steps.
pub struct LockRule;

impl<T: Logged> TableRule<Option<T>, View<T::Head>, Snapshot<T>> for LockRule {
    ghost use Rattle.seat_lock.specs.Rule.{IsHeldByRule};
    ghost use Rattle.seat_lock.specs.Views.{starting};

    ghost holds = { λ _. IsHeldByRule T.head T.log };

    ghost first = { λ key. starting (T.head key.value) (T.log key.value) };
}

/// A ticket is drawn.
pub struct DrawTicket;

impl<T: Logged> Play<Option<T>, View<T::Head>> for DrawTicket {
    ghost use Rattle.seat_lock.specs.Views.{Draws};

    ghost then = { Draws };
}

/// The number served is looked at.
pub struct LookAtServed;

impl<T: Logged> Play<Option<T>, View<T::Head>> for LookAtServed {
    ghost use Rattle.seat_lock.specs.Views.{LooksAt};

    ghost then = { LooksAt T.head T.log };
}

/// A turn ends, with an entry or without one.
pub struct EndTurn;

impl<T: Logged> Play<Option<T>, View<T::Head>> for EndTurn {
    ghost use Rattle.seat_lock.specs.Views.{Ends};

    ghost then = { Ends T.log };
}

/// A seat is split off the first.
pub struct SplitOff;

impl<H> Split<View<H>> for SplitOff {
    ghost use Rattle.seat_lock.specs.Views.{with_one_more_out, newcomer};

    ghost left = { with_one_more_out };

    ghost right = { newcomer };
}

/// A seat is joined into the first.
pub struct JoinIn;

impl<H> Join<View<H>> for JoinIn {
    ghost use Rattle.seat_lock.specs.Views.{with_joined, spent_view};

    ghost both = { with_joined };

    ghost spent = { spent_view };
}
