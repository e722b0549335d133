// The program of `lesson`, which ends well whatever became of it: the crate program gives its exit status.
#![tactic(auto)]

fn main(rt: HostRuntime) {
    lesson::kos_lesson(&rt);
}
