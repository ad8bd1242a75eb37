// The first record that bears a transaction number, in the queue and in the post alike.
ghost use Rattle.std.specs.Prelude.{◌≡◌, ℕ, ◌==◌, length, drop, position};
ghost use Rattle.records.specs.Finder.{first_in, Placed};

pub trait Bears {
    ghost number: { Self → ℕ };

    fn transaction(&self) -> u32
        ensures { result ≡ number self.now };
}

// The first place whose record bears the number, or none. A step of its own: behind the `?` of `first_from` the check
// does not find it.
fn first_of<T: Bears>(items: &[T], number: u32) -> Option<usize>
    ensures { result ≡ position (λ x. T.Bears.number x == number) items.now }
{
    items.iter().position(|item| item.transaction() == number)
}

// The first place, at `from` or after it, whose record bears the number; or none.
pub fn first_from<T: Bears>(items: &[T], from: usize, number: u32) -> Option<usize>
    ensures value { result ≡ first_in T.Bears.number number from (drop from items.now) }
    ensures place { Placed from (length items.now) result }
{
    let place = first_of(items.get(from..)?, number)?;
    Some(from + place)
}
