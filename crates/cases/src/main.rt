// Feeds the recordings of document 01 to the order checker and prints each answer. The file `stdout` has what document 01 says.
#![tactic(auto)]

mod accepting;
mod asking;
mod edges;
mod feeding;
mod full;
mod joining;
mod recordings;
mod records;
mod source;
mod telling;
mod text;
mod walks;

fn main(rt: HostRuntime) {
    recordings::short(&rt);
    recordings::lossy(&rt);
    recordings::longer(&rt);
    recordings::renewed(&rt);
    recordings::missed(&rt);
    recordings::bumped(&rt);
    recordings::owned(&rt);
    recordings::whole(&rt);
    recordings::refused(&rt);
    edges::rows(&rt);
    edges::first_row(&rt);
    edges::series(&rt);
    edges::huge(&rt);
    edges::masks(&rt);
    joining::joins(&rt);
    accepting::entries(&rt);
    walks::lists(&rt);
    recordings::full(&rt);
}
