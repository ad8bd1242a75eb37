// Sets of halls: bit h for hall h. A set is a plain number, as messages carry it; each number of 8 bits is a set.
ghost use Rattle.std.specs.Prelude.{◌≡◌, ◌<◌, ◌≤◌, count_ones};
ghost use Rattle.records.specs.Halls.{bit, names, exist, fit_class, fit};

use super::classes::Class;

fn has_bit(halls: u8, hall: u8) -> bool
    requires { hall < 8 }
    ensures { result ≡ bit halls hall }
{
    (halls >> hall) & 1 == 1
}

// Whether a set has a hall; it has none above 7.
pub fn has(halls: u8, hall: u8) -> bool
    ensures { result ≡ names halls hall }
{
    hall < 8 && has_bit(halls, hall)
}

// How many halls a set names.
pub fn count_of(halls: u8) -> u32
    ensures value { result ≡ count_ones halls }
    ensures few { result ≤ 8 }
{
    halls.count_ones()
}

// Whether every hall of a set is one of those that are open.
fn all_exist(open: u8, halls: u8) -> bool
    ensures { result ≡ exist «open» halls }
{
    open >= 8 || u16::from(halls) < 1 << open
}

fn fits_class(class: Class, halls: u8) -> bool
    ensures { result ≡ fit_class (Some class) halls }
{
    match class {
        Class::Single => count_of(halls) == 1,
        Class::Independent | Class::Coordinated => count_of(halls) >= 2,
    }
}

// Whether the halls are open, and as many as the class of this number asks for.
pub fn fits(open: u8, class: u8, halls: u8) -> bool
    ensures { result ≡ fit «open» class halls }
{
    all_exist(open, halls) && Class::try_from(class).is_ok_and(|class| fits_class(class, halls))
}
