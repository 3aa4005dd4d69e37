//! The lock's table: its rule, and what each of its steps tells. No value of these types holds any data.
use crate::logged::Logged;
use crate::view::View;
use atomic_table::{Join, Play, Seat, Split, Table, TableRule};
use std::alloc::Global;
use std::marker::PhantomData;
use std::snapshot::Snapshot;

/// What the table is told once: the value that the lock is started with, and its lanes.
pub(crate) struct Key<B> {
    pub(crate) opening: Snapshot<B>,
    pub(crate) lanes: u8,
}

impl<B> Drop for Key<B> {
    fn drop(self) {
        let Key {
            opening: _,
            lanes: _,
        } = self;
    }
}

pub(crate) struct InTurns<B> {
    value: PhantomData<B>,
}

impl<B: Logged> TableRule<Option<B>, View<B, B::Call, B::Reply>, Key<B>> for InTurns<B> {
    ghost use Rattle.seat_lock.specs.work.Rule.{Kept};
    ghost use Rattle.seat_lock.specs.work.Views.{first_view};

    ghost holds = { λ key. Kept B.root B.log B.spare key.opening.value key.lanes };

    ghost first = { λ key. first_view key.opening.value key.lanes };
}

pub(crate) type Queue<B> = Table<
    Option<B>,
    View<B, <B as Logged>::Call, <B as Logged>::Reply>,
    Key<B>,
    InTurns<B>,
    Global,
>;

pub(crate) type Place<B> = Seat<Option<B>, View<B, <B as Logged>::Call, <B as Logged>::Reply>>;

pub(crate) struct Draw;

impl<B, C, R> Play<Option<B>, View<B, C, R>> for Draw {
    ghost use Rattle.seat_lock.specs.work.Moves.{drew};

    ghost then = { drew };
}

pub(crate) struct Look<B> {
    value: PhantomData<B>,
}

impl<B: Logged> Play<Option<B>, View<B, B::Call, B::Reply>> for Look<B> {
    ghost use Rattle.seat_lock.specs.work.Moves.{looked};

    ghost then = { looked B.root B.log B.spare };
}

pub(crate) struct Note<B> {
    value: PhantomData<B>,
}

impl<B: Logged> Play<Option<B>, View<B, B::Call, B::Reply>> for Note<B> {
    ghost use Rattle.seat_lock.specs.work.Moves.{noted};

    ghost then = { noted B.log };
}

pub(crate) struct Serve;

impl<B, C, R> Play<Option<B>, View<B, C, R>> for Serve {
    ghost use Rattle.seat_lock.specs.work.Moves.{gave_way};

    ghost then = { gave_way };
}

pub(crate) struct Lanes;

impl<B, C, R> Split<View<B, C, R>> for Lanes {
    ghost use Rattle.seat_lock.specs.work.Views.{lanes_kept, lane_given};

    ghost left = { lanes_kept };

    ghost right = { lane_given };
}

impl<B, C, R> Join<View<B, C, R>> for Lanes {
    ghost use Rattle.seat_lock.specs.work.Views.{lanes_joined, spent_view};

    ghost both = { lanes_joined };

    ghost spent = { spent_view };
}
