// What the options print.
use crate::system::STACK_KIB;
use crate::word::{WORDS, Word};
use std::io;
use std::io::Print;

// The kit that this is proved with, as `rt version` says it. tests/command compares the two.
const KIT: &str = "rattle-kit-13f logic dac8208d650f15bf";

const ARGUMENTS: &str = "[--progress] [FILE]";

const INPUT_AND_STATUS: &str =
    "FILE is a journal. Without one, or with -, it is read from standard input.\nAt a terminal, or with --progress, a run of more than a second says on standard error how far it is.\n\nStatus: 0 read to its end, 1 a wrong call or too little stack, 2 the header is unsound, 3 a record is unsound,\n4 the input could not be read, 5 the output could not be written.\n";

pub fn print_help(rt: &impl Print) -> io::Result<()> {
    println!(rt; "durskafn WORD: the ledger of a small power futures market\n")?;
    for word in WORDS {
        print_row(rt, word)?;
    }
    println!(rt;
        "\ndurskafn WORD --help says more of a word, durskafn --version which version this is."
    )?;
    println!(rt; "It needs {STACK_KIB} KiB of stack (ulimit -s).")
}

fn print_row(rt: &impl Print, word: Word) -> io::Result<()> {
    let name = word.name();
    let does = word.does();
    println!(rt; "  {name} {ARGUMENTS}: {does}")
}

pub fn print_word(rt: &impl Print, word: Word) -> io::Result<()> {
    let name = word.name();
    let does = word.does();
    let help = word.help();
    print!(rt; "durskafn {name} {ARGUMENTS}: {does}\n\n{help}{INPUT_AND_STATUS}")
}

pub fn print_version(rt: &impl Print) -> io::Result<()> {
    println!(rt; "durskafn, for journals of version 1; proved with {KIT}")
}
