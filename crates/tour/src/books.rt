// Both books, call by call: each kind of call accepted, and each kind of refusal.
use coins::book::{CoinBook, coin_book};
use ledgers::books::{Ledger, Ledgers};
use ledgers::kinds::{Coins, Kind, Titles};
use ledgers::refusals::Refusal;
use std::io;
use swap::records::Holder;
use titles::book::{TitleBook, title_book};

// the ledger that is shown
const LEDGER: u8 = 2;

// Prints what a book answered to a call.
fn show_answer(rt: &HostRuntime, call: &str, answer: Result<(), Refusal>) -> io::Result<()> {
    match answer {
        Ok(()) => println!(rt; "{call}: accepted"),
        Err(refusal) => println!(rt; "{call}: refused: {refusal}"),
    }
}

fn show_balance<K: Kind, B: Ledgers<K>>(
    rt: &HostRuntime,
    book: &B,
    before: &str,
    holder: Holder,
    unit: u32,
) -> io::Result<()> {
    match book.balance(LEDGER, holder, unit) {
        Ok(count) => println!(rt; "{before}{holder} has {count}"),
        Err(refusal) => println!(rt; "{before}{holder}: refused: {refusal}"),
    }
}

// Credits the asset to party 1 until the book refuses.
fn fill<K: Kind, B: Ledgers<K>>(rt: &HostRuntime, book: &mut B, asset: u32) -> io::Result<()> {
    for times in 0..100 {
        if let Err(refusal) = book.credit(LEDGER, 1, asset) {
            return println!(rt;
                "credit to party 1: accepted, times {times}, then refused: {refusal}"
            );
        }
    }
    Ok(())
}

fn show<K: Kind, B: Ledgers<K>>(
    rt: &HostRuntime,
    book: &mut B,
    asset: u32,
    unit: u32,
) -> io::Result<()> {
    fill::<K, B>(rt, book, asset)?;
    let answer = book.credit(4, 1, asset);
    show_answer(rt, "credit on ledger 4", answer)?;
    let answer = book.deposit(LEDGER, 1, 5, asset);
    show_answer(rt, "deposit by party 1 into account 5", answer)?;
    let answer = book.deposit(LEDGER, 3, 6, asset);
    show_answer(rt, "deposit by party 3 into account 6", answer)?;
    let answer = book.deposit(LEDGER, 1, 5, asset);
    show_answer(rt, "deposit by party 1 into account 5", answer)?;
    show_balance::<K, B>(rt, book, "", Holder::Escrow(5), unit)?;
    let answer = book.release(LEDGER, 6, 2);
    show_answer(rt, "release of account 6 to party 2", answer)?;
    let answer = book.release(LEDGER, 5, 2);
    show_answer(rt, "release of account 5 to party 2", answer)?;
    show_balance::<K, B>(rt, book, "", Holder::Party(1), unit)?;
    show_balance::<K, B>(rt, book, "", Holder::Party(2), unit)?;
    show_balance::<K, B>(rt, book, "", Holder::Escrow(24), unit)?;
    book.clear();
    show_balance::<K, B>(rt, book, "after clear ", Holder::Party(2), unit)
}

pub(crate) fn show_books(rt: &HostRuntime) -> io::Result<()> {
    println!(rt; "a book of coins: 100000000 of unit 0")?;
    let mut coins = coin_book();
    show::<Coins, CoinBook>(rt, &mut coins, 100_000_000, 0)?;
    println!(rt; "a book of titles: title 7, of unit 7")?;
    let mut titles = title_book();
    show::<Titles, TitleBook>(rt, &mut titles, 7, 7)
}
