// Document 01's journal program: from standard input to standard output. The files stdin and stdout are the paper's journal and
// its whole output. Its exit status is left out here; durskafn sends it.
#![tactic(auto)]

fn main(rt: HostRuntime) {
    journal_program::journal_run(&rt, &mut rt.stdin(), false, None);
}
