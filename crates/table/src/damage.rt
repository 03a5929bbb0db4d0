// Damage: bits that no sound table has. A call that meets it is refused with 7.
ghost use Rattle.std.specs.Prelude.{◌≡◌};
ghost use Rattle.settings.specs.declared.refusal.Refusal.TheVariants as refusal;

use settings::Refusal;

#[derive(Clone, Copy)]
pub struct Damage;

impl From<Damage> for Refusal {
    ghost from_gives = { λ _ why. why ≡ refusal.Damage };

    fn from(_damage: Damage) -> Refusal {
        Refusal::Damage
    }
}
