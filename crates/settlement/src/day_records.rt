//! The records of a Day that have a key, and go out at its close.
ghost use Rattle.settlement.specs.Keys.{daily_day, daily_key, daily_keyed, daily_on, statement_day, statement_key, statement_keyed, statement_on, trade_day, trade_key, trade_keyed, trade_on};
ghost use Rattle.std.proofs.Common.{rules};

use ledger::register::Keyed;

/// What a user states to have put in at an entry point.
#[derive(Clone, Copy, Debug, PartialEq, Eq)]
pub struct Statement {
    pub day: u16,
    pub entry: u16,
    pub user: u16,
    pub quantity: u64,
}

#[derive(Clone, Copy, Debug, PartialEq, Eq)]
pub struct StatementKey {
    pub day: u16,
    pub entry: u16,
    pub user: u16,
}

impl Keyed for Statement {
    type Key = StatementKey;

    type Group = u16;

    ghost key_of = { statement_key };

    ghost group_of = { statement_day };

    ghost keyed = { statement_keyed };

    ghost among = { statement_on };

    ghost tells_key = { Prim.search rules };

    ghost tells_group = { Prim.search rules };

    fn key(&self) -> StatementKey {
        StatementKey {
            day: self.day,
            entry: self.entry,
            user: self.user,
        }
    }

    fn has_key(&self, key: StatementKey) -> bool {
        self.key() == key
    }

    fn belongs(&self, group: u16) -> bool {
        self.day == group
    }
}

/// What a point of class 1 or 2 took.
#[derive(Clone, Copy, Debug, PartialEq, Eq)]
pub struct DailyQuantity {
    pub day: u16,
    pub point: u16,
    pub quantity: u64,
}

#[derive(Clone, Copy, Debug, PartialEq, Eq)]
pub struct DailyQuantityKey {
    pub day: u16,
    pub point: u16,
}

impl Keyed for DailyQuantity {
    type Key = DailyQuantityKey;

    type Group = u16;

    ghost key_of = { daily_key };

    ghost group_of = { daily_day };

    ghost keyed = { daily_keyed };

    ghost among = { daily_on };

    ghost tells_key = { Prim.search rules };

    ghost tells_group = { Prim.search rules };

    fn key(&self) -> DailyQuantityKey {
        DailyQuantityKey {
            day: self.day,
            point: self.point,
        }
    }

    fn has_key(&self, key: DailyQuantityKey) -> bool {
        self.key() == key
    }

    fn belongs(&self, group: u16) -> bool {
        self.day == group
    }
}

/// What a user sold to another.
#[derive(Clone, Copy, Debug, PartialEq, Eq)]
pub struct Trade {
    pub day: u16,
    pub seller: u16,
    pub buyer: u16,
    pub quantity: u64,
}

#[derive(Clone, Copy, Debug, PartialEq, Eq)]
pub struct TradeKey {
    pub day: u16,
    pub seller: u16,
    pub buyer: u16,
}

impl Keyed for Trade {
    type Key = TradeKey;

    type Group = u16;

    ghost key_of = { trade_key };

    ghost group_of = { trade_day };

    ghost keyed = { trade_keyed };

    ghost among = { trade_on };

    ghost tells_key = { Prim.search rules };

    ghost tells_group = { Prim.search rules };

    fn key(&self) -> TradeKey {
        TradeKey {
            day: self.day,
            seller: self.seller,
            buyer: self.buyer,
        }
    }

    fn has_key(&self, key: TradeKey) -> bool {
        self.key() == key
    }

    fn belongs(&self, group: u16) -> bool {
        self.day == group
    }
}
