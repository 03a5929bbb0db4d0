// Why a call is refused (clause 7.1), a variant each.
ghost use Rattle.std.specs.Prelude.{◌≡◌};
ghost use Rattle.settings.specs.Refusal.{number_of};

#[derive(Clone, Copy)]
pub enum Refusal {
    Settings = 1,
    Short = 2,
    Width = 3,
    Text = 4,
    Key = 5,
    Label = 6,
    Damage = 7,
    NoBlock = 8,
    Output = 9,
    Marks = 10,
    Line = 11,
    Known = 12,
    Page = 13,
    Slot = 14,
}

impl Refusal {
    // The number of the refusal.
    pub fn number(self) -> u32
        ensures { result ≡ number_of self }
    {
        self as u32
    }
}
