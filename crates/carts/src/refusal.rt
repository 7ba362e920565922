// Why a call is refused: a row of 01's and 02's "Where a call is stopped" for each.
ghost use Rattle.std.specs.Prelude.{◌≡◌, ◌≤◌};
ghost use Rattle.carts.specs.Refusal.{refusal_number};

#[derive(Clone, Copy, PartialEq, Eq)]
pub enum Refusal {
    Length,
    Layout,
    NoSuchPlace,
    ReadWaits,
    OperationCount,
    OperationForm,
    NoRoom,
    WrongState,
    AllSent,
    WindowFull,
    AllApplied,
    RequestForm,
    ShortOutput,
    NothingWaits,
    SetupForm,
    SpacedTitle,
    NoMessage,
    NotNext,
    OtherCopy,
    NotRetirable,
    RetiredEdit,
    FileForm,
    LongTitle,
}

impl Refusal {
    // The row's number.
    pub fn number(self) -> u32
        ensures { (result ≡ refusal_number self) × (1 ≤ result) }
    {
        match self {
            Refusal::Length => 1,
            Refusal::Layout => 2,
            Refusal::NoSuchPlace => 3,
            Refusal::ReadWaits => 4,
            Refusal::OperationCount => 5,
            Refusal::OperationForm => 6,
            Refusal::NoRoom => 7,
            Refusal::WrongState => 8,
            Refusal::AllSent => 9,
            Refusal::WindowFull => 10,
            Refusal::AllApplied => 11,
            Refusal::RequestForm => 12,
            Refusal::ShortOutput => 13,
            Refusal::NothingWaits => 14,
            Refusal::SetupForm => 15,
            Refusal::SpacedTitle => 16,
            Refusal::NoMessage => 17,
            Refusal::NotNext => 18,
            Refusal::OtherCopy => 19,
            Refusal::NotRetirable => 20,
            Refusal::RetiredEdit => 21,
            Refusal::FileForm => 22,
            Refusal::LongTitle => 23,
        }
    }
}
