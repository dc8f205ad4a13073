// The tables of a running state, lent together: those of a State, of a host program, or of one function. Who lends those of a State names all four: a
// function over a State that returns them was tried and proves, but what the State then ends as could not be said, since `Lends` knows two borrows at most.
// The tables of the sets come one by one: begin_sets and set_step_in_place alone take them, and pass none on together.
use theory::{Clocks, Control, History};

#[derive(Drop)]
pub struct Tables<'a> {
    pub control: &'a mut Control,
    pub last: &'a mut History,
    pub clocks: &'a mut Clocks,
    pub fullclocks: &'a mut Clocks,
}
