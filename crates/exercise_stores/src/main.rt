// Plays through the public calls what delayed stores and growth that is asked for add: waiting lines and words set aside that no
// call leaves, each beside the nearest one that is allowed, their refusals, and a commit's lines. One line for each try.
// Uses `queues`, `model` and `tries`. It is a program, and no crate uses it.

#![tactic(auto)]

mod delayed;
mod growth;

fn main(rt: HostRuntime) {
    let out = rt.stdout();
    delayed::lengths(out);
    delayed::words(out);
    delayed::notes(out);
    delayed::anchors(out);
    delayed::fifo(out);
    delayed::owners_array(out);
    delayed::full(out);
    delayed::full_growth(out);
    delayed::full_order(out);
    growth::asks(out);
    growth::space(out);
    growth::sizes(out);
    growth::asides(out);
    growth::asides_fit(out);
    growth::asides_size(out);
    growth::asides_at_x1(out);
    growth::asides_of_a_put(out);
    growth::asides_of_a_commit(out);
    growth::two_notes(out);
    growth::two_notes_sizes(out);
    growth::two_notes_asides(out);
    growth::full(out);
    growth::log_room(out);
    growth::puts(out);
    growth::empty(out);
}
