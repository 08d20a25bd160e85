// Histories with answers that were worked out by hand.
use crate::history::WORKED;
use estimating::fixed::Fixed;
use judging::{ByHalf, Never};
use ladder::standard::{StandardMethod, standard_method};
use measures::entry::{Entry, Kind};
use measures::rate::Rate;
use premise::calls::settled_alike;
use premise::file::PremiseFile;
use premise::happening::Happening;
use premise::opening::{MOST_PLACES, Opening};
use premise::play::Call;
use std::process::Abort;
use std::test::Fail;

// Where the files begin, but for what a test changes.
const OPENING: Opening = Opening {
    rate: Rate::E12,
    digits: 5,
    day: 100,
    register: 0,
    customer: 7,
};

fn opened(opening: &Opening, book: &[Entry]) -> Result<PremiseFile<StandardMethod, ByHalf>, u8> {
    PremiseFile::open(standard_method(), ByHalf, opening, book)
}

// Plays the calls on a new file, and compares what they answer.
fn answers(
    rt: &(impl Abort + AllocGlobal),
    rate: Rate,
    digits: u32,
    book: &mut [Entry],
    calls: &[Call],
    expected: &[Happening],
) -> Result<(), Fail> {
    let mut file = opened(
        &Opening {
            rate,
            digits,
            ..OPENING
        },
        book,
    )?;
    let happened = file.play(rt.alloc(), book, calls)?;
    assert!(rt; happened.as_slice() == expected);
    Ok(())
}

#[test]
fn worked_history(rt: HostRuntime) -> Result<(), Fail> {
    let mut book = [Entry::BLANK; MOST_PLACES];
    let mut file = opened(
        &Opening {
            register: 99_500,
            ..OPENING
        },
        &book,
    )?;
    let happened = file.play(rt.alloc(), &mut book, &WORKED)?;
    let expected = [
        Happening::Miss(108, Ok((4, 0, 0))),
        Happening::Miss(138, Ok((3, 7, 950))),
        Happening::Read(168, 800, Ok((2, 350, 0))),
        Happening::Miss(198, Ok((3, 1, 350))),
        Happening::Read(228, 900, Ok((1, 50, 1))),
        Happening::Move(8, Ok(())),
        Happening::Miss(259, Ok((3, 4, 51))),
        Happening::Read(259, 950, Err(12)),
        Happening::Read(290, 1_000, Ok((1, 50, 1))),
    ];
    assert!(rt; happened.as_slice() == expected.as_slice());
    assert_eq!(rt; file.settled_sum(&book), Ok(1_500));
    assert_eq!(rt; file.open_sum(&book), Ok(0));
    Ok(())
}

#[test]
fn short_first_month(rt: HostRuntime) -> Result<(), Fail> {
    let mut book = [Entry::BLANK; 2];
    answers(
        &rt,
        Rate::E12,
        5,
        &mut book,
        &[Call::Miss { day: 110 }],
        &[Happening::Miss(110, Ok((4, 0, 0)))],
    )?;
    answers(
        &rt,
        Rate::E12,
        5,
        &mut book,
        &[Call::Miss { day: 111 }],
        &[Happening::Miss(111, Ok((3, 7, 275)))],
    )
}

#[test]
fn refusals_of_calls(rt: HostRuntime) -> Result<(), Fail> {
    let mut book = [Entry::BLANK; 2];
    let calls = [
        Call::Read {
            day: 36_525,
            register: 5,
        },
        Call::Read {
            day: 130,
            register: 10_000,
        },
        Call::Read {
            day: 100,
            register: 5,
        },
        Call::Read {
            day: 200,
            register: 5,
        },
        Call::Miss { day: 36_525 },
        Call::Miss { day: 99 },
        Call::Move { customer: 0 },
        Call::Move { customer: 7 },
        Call::Miss { day: 130 },
        Call::Move { customer: 8 },
        Call::Read {
            day: 160,
            register: 10,
        },
        Call::Read {
            day: 190,
            register: 20,
        },
        Call::Miss { day: 190 },
    ];
    let expected = [
        Happening::Read(36_525, 5, Err(2)),
        Happening::Read(130, 10_000, Err(3)),
        Happening::Read(100, 5, Err(12)),
        Happening::Read(200, 5, Err(12)),
        Happening::Miss(36_525, Err(2)),
        Happening::Miss(99, Err(12)),
        Happening::Move(0, Err(4)),
        Happening::Move(7, Err(17)),
        Happening::Miss(130, Ok((3, 7, 750))),
        Happening::Move(8, Err(16)),
        Happening::Read(160, 10, Ok((1, 5, 1))),
        Happening::Read(190, 20, Err(13)),
        Happening::Miss(190, Err(13)),
    ];
    answers(&rt, Rate::E12, 4, &mut book, &calls, &expected)?;
    assert_eq!(rt; book[0].kwh, 5);
    assert!(rt; book[0].kind == Kind::Corrected);
    Ok(())
}

// A file with refused calls between the accepted ones stands where one with the accepted ones alone does.
#[test]
fn refusals_change_nothing(rt: HostRuntime) -> Result<(), Fail> {
    let mut book = [Entry::BLANK; 3];
    let mut other_book = book;
    let mut file = opened(
        &Opening {
            digits: 4,
            ..OPENING
        },
        &book,
    )?;
    let mut other = opened(
        &Opening {
            digits: 4,
            ..OPENING
        },
        &book,
    )?;
    assert_eq!(rt; file.read(&mut book, 130, 10_000), Err(3));
    assert_eq!(rt; file.miss(&mut book, 200), Err(12));
    assert_eq!(rt; file.move_in(0), Err(4));
    assert!(rt; book == [Entry::BLANK; 3]);
    assert_eq!(rt; file.miss(&mut book, 130), Ok((3, 7, 750)));
    assert_eq!(rt; other.miss(&mut other_book, 130), Ok((3, 7, 750)));
    assert_eq!(rt; file.move_in(8), Err(16));
    assert_eq!(rt; file.read(&mut book, 130, 10), Err(12));
    assert!(rt; book == other_book);
    assert_eq!(rt; file.open_sum(&book), other.open_sum(&other_book));
    assert_eq!(rt; file.read(&mut book, 160, 10), Ok((1, 5, 1)));
    assert_eq!(rt; other.read(&mut other_book, 160, 10), Ok((1, 5, 1)));
    assert_eq!(rt; file.move_in(7), Err(17));
    assert!(rt; book == other_book);
    assert_eq!(rt; settled_alike(&file, &book, &other, &other_book), Ok(true));
    assert_eq!(rt; file.miss(&mut book, 190), other.miss(&mut other_book, 190));
    assert!(rt; book == other_book);
    Ok(())
}

#[test]
fn no_answer_and_past_the_dial(rt: HostRuntime) -> Result<(), Fail> {
    let mut book = [Entry::BLANK; 3];
    let call = [Call::Miss { day: 111 }];
    answers(
        &rt,
        Rate::Other,
        5,
        &mut book,
        &call,
        &[Happening::Miss(111, Err(14))],
    )?;
    answers(
        &rt,
        Rate::NrL,
        4,
        &mut book,
        &call,
        &[Happening::Miss(111, Err(15))],
    )?;
    assert!(rt; book == [Entry::BLANK; 3], "no refusal writes");
    Ok(())
}

#[test]
fn another_book(rt: HostRuntime) -> Result<(), Fail> {
    let mut book = [Entry::BLANK; 3];
    let mut file = opened(&OPENING, &book)?;
    let mut longer = [Entry::BLANK; 4];
    assert_eq!(rt; file.miss(&mut longer, 130), Err(11));
    assert_eq!(rt; file.read(&mut longer, 130, 5), Err(11));
    assert_eq!(rt; file.open_sum(&longer), Err(11));
    assert!(rt; longer == [Entry::BLANK; 4]);
    assert_eq!(rt; file.miss(&mut book, 130), Ok((3, 7, 750)));
    book[0].kwh = 100_000;
    assert_eq!(rt;
        file.read(&mut book, 160, 5),
        Err(11),
        "kWh that reach the turn"
    );
    Ok(())
}

#[test]
fn refusals_of_opening(rt: HostRuntime) {
    let book = [Entry::BLANK; 1];
    assert_eq!(rt; opens(3, 0, 0, 1, &book), Err(1));
    assert_eq!(rt; opens(9, 36_525, 0, 1, &book), Err(1));
    assert_eq!(rt; opens(4, 36_525, 10_000, 1, &book), Err(2));
    assert_eq!(rt; opens(4, 36_524, 10_000, 0, &book), Err(3));
    assert_eq!(rt; opens(4, 36_524, 9_999, 0, &[]), Err(4));
    assert_eq!(rt; opens(4, 36_524, 9_999, 1, &[]), Err(5));
    assert_eq!(rt; opens(4, 36_524, 9_999, 1, &[Entry::BLANK; 241]), Err(5));
    assert_eq!(rt;
        opens(8, 0, 99_999_999, 4_294_967_295, &[Entry::BLANK; 240]),
        Ok(())
    );
}

fn opens(digits: u32, day: u32, register: u32, customer: u32, book: &[Entry]) -> Result<(), u8> {
    let _file = PremiseFile::open(
        Never,
        Never,
        &Opening {
            rate: Rate::E12,
            digits,
            day,
            register,
            customer,
        },
        book,
    )?;
    Ok(())
}

// A miss and a read in turn, 240 calls; then what is settled is the dial's whole advance, whatever the makes.
#[test]
fn long_history(rt: HostRuntime) -> Result<(), Fail> {
    let mut calls = [Call::Miss { day: 0 }; 240];
    let mut day: u32 = 100;
    let mut register: u32 = 99_000;
    for call in calls.iter_mut() {
        day = day.saturating_add(30);
        if day % 60 == 10 {
            *call = Call::Miss { day };
        } else {
            register = register.saturating_add(731) % 100_000;
            *call = Call::Read { day, register };
        }
    }
    let mut book = [Entry::BLANK; 240];
    let mut file = opened(
        &Opening {
            register: 99_000,
            ..OPENING
        },
        &book,
    )?;
    let _ = file.play(rt.alloc(), &mut book, &calls)?;
    assert_eq!(rt; file.settled_sum(&book), Ok(87_720));
    let mut other_book = [Entry::BLANK; 240];
    let mut other = PremiseFile::open(
        Fixed::new(40, 3)?,
        Never,
        &Opening {
            rate: Rate::Other,
            register: 99_000,
            customer: 9,
            ..OPENING
        },
        &other_book,
    )?;
    let _ = other.play(rt.alloc(), &mut other_book, &calls)?;
    assert_eq!(rt; settled_alike(&file, &book, &other, &other_book), Ok(true));
    Ok(())
}
