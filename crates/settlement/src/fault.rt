//! Why a call refuses, and which part of the book does.
ghost use Rattle.std.specs.Prelude.{◌≡◌};
ghost use Rattle.settlement.specs.Faults.{layer_of, number_of};
ghost use Rattle.settlement.specs.declared.fault.Fault.TheVariants.{RegisterFull, Text};

use ledger::Layer;
use ledger::register::Full;
use records::TextFault;

/// The grounds for refusing, in the order in which a call looks for them.
#[derive(Clone, Copy, Debug, PartialEq, Eq)]
pub enum Fault {
    /// The text is not that of a record.
    Text(TextFault),
    /// The book does not take this record now.
    NotTakenNow,
    /// A table is short, or something that the call reads in one is outside its limits.
    BadTable,
    /// A value is outside its limits, or the class does not carry the least days.
    OutsideLimits,
    /// A user, entry point, zone or exit point is not in the book.
    NotInBook,
    /// Seller and buyer are one.
    SelfTrade,
    /// The Day is below 0, or past the last.
    NoSuchDay,
    /// The Day is closed to records.
    DayClosed,
    /// The point's class does not take this record.
    WrongClass,
    /// The register is full.
    RegisterFull,
    /// There are 48 points already.
    TooManyPoints,
    /// The draft to be started has no point.
    NoPoint,
    /// No Day is left to close.
    NoDayLeft,
    /// A measurement of an entry point or zone is missing.
    MeasurementMissing,
    /// A zone's weather, or the profile of a band in use, is missing.
    FactorsMissing,
    /// A daily quantity is missing.
    DailyQuantityMissing,
    /// An estimate exceeds 1,000,000.
    EstimateTooLarge,
    /// An entry point's total is not zero and its weights are.
    InputsWithoutWeight,
    /// A zone's unidentified gas is not zero and its adjusted outputs are.
    UnidentifiedWithoutWeight,
    /// The Day or month is not closed.
    NotClosed,
    /// A slip is brought while none is in hand.
    NoSlipInHand,
    /// The reading covers fewer Days than the point's least days.
    TooFewDays,
    /// 32 slips are in hand.
    TooManySlips,
    /// The entry takes a zone's aggregate past 50,000,000 either way.
    AggregateTooLarge,
    /// The month is not wholly in the book or has an open Day.
    MonthOpen,
    /// A slip is in hand at the month close.
    SlipInHand,
    /// A zone's aggregate is not zero and its twelve months' weights are.
    ReturnsWithoutWeight,
}

impl Fault {
    /// The refusal's number.
    pub fn number(self) -> u8
        ensures { result ≡ number_of self }
    {
        match self {
            Fault::Text(fault) => fault.number(),
            Fault::NotTakenNow => 4,
            Fault::BadTable => 5,
            Fault::OutsideLimits => 6,
            Fault::NotInBook => 7,
            Fault::SelfTrade => 8,
            Fault::NoSuchDay => 9,
            Fault::DayClosed => 10,
            Fault::WrongClass => 11,
            Fault::RegisterFull => 12,
            Fault::TooManyPoints => 13,
            Fault::NoPoint => 14,
            Fault::NoDayLeft => 15,
            Fault::MeasurementMissing => 16,
            Fault::FactorsMissing => 17,
            Fault::DailyQuantityMissing => 18,
            Fault::EstimateTooLarge => 19,
            Fault::InputsWithoutWeight => 20,
            Fault::UnidentifiedWithoutWeight => 21,
            Fault::NotClosed => 22,
            Fault::NoSlipInHand => 23,
            Fault::TooFewDays => 24,
            Fault::TooManySlips => 25,
            Fault::AggregateTooLarge => 26,
            Fault::MonthOpen => 27,
            Fault::SlipInHand => 28,
            Fault::ReturnsWithoutWeight => 29,
        }
    }

    /// The part of the book that refuses.
    pub fn layer(self) -> Layer
        ensures { result ≡ layer_of self }
    {
        match self {
            Fault::Text(fault) => fault.layer(),
            Fault::RegisterFull => Layer::Register,
            Fault::InputsWithoutWeight
            | Fault::UnidentifiedWithoutWeight
            | Fault::ReturnsWithoutWeight => Layer::Rule,
            _ => Layer::Book,
        }
    }
}

impl From<TextFault> for Fault {
    ghost from_gives = { λ fault e. e ≡ Text fault };

    fn from(fault: TextFault) -> Fault {
        Fault::Text(fault)
    }
}

impl From<Full> for Fault {
    ghost from_gives = { λ _ e. e ≡ RegisterFull };

    fn from(_full: Full) -> Fault {
        Fault::RegisterFull
    }
}
