// The run clock: the draws' present value and the number of the next draw.
ghost use Rattle.std.specs.Prelude.{◌≡◌};
ghost use Rattle.machine.specs.Clock.{advanced};

#[derive(Clone, Copy)]
pub struct Clock {
    pub value: u32,
    pub draw: u16,
}

// Advances a lent run clock by a draw.
pub fn tick(clock: &mut Clock)
    ensures { clock.new ≡ advanced clock.old }
{
    clock.value = draws::draw(clock.value);
    clock.draw = clock.draw.wrapping_add(1);
}

// The same by value: a local is lent to `tick`.
pub fn ticked(clock: Clock) -> Clock
    ensures { result ≡ advanced clock }
{
    let mut next = clock;
    tick(&mut next);
    next
}
