// A short rehearsal of two sources, and the calls that are refused.
use crate::angles::Direction;
use crate::calls::{HEARD, holds, place, render, settle, take_back, told};
use crate::dome;
use session_calls::Session;
use std::io;

fn heading(rt: &impl Print) -> io::Result<()> {
    println!(rt;
        "{:34}{:>7}{:>9}{:>11}{:>14}{:>11}   answer",
        "call", "source", "azimuth", "elevation", "in radians", "in radians"
    )
}

// ---- accepted

// Two sources fade in, in front and on the left.
fn first_block(rt: &impl Print, fresh: Session) -> io::Result<Session> {
    let one = place(rt, fresh, 0, Direction::of(0.0, 0.0))?;
    let both = place(rt, one, 1, Direction::of(-90.0, 0.0))?;
    render(rt, both)
}

// The first source tries the zenith, goes back, and moves to the right.
fn second_block(rt: &impl Print, s: Session) -> io::Result<Session> {
    let tried = place(rt, s, 0, Direction::of(0.0, 90.0))?;
    let back = take_back(rt, tried, 0)?;
    let moved = place(rt, back, 0, Direction::of(90.0, 0.0))?;
    let settled = settle(rt, moved, 0)?;
    render(rt, settled)
}

// ---- refused

fn refused_open(rt: &impl Print) -> io::Result<()> {
    // not a multiple of 3
    told(rt, "open, 74 position numbers", &dome::open_zeros(74))?;
    // three numbers a position
    told(rt, "open, 41 positions", &dome::open_zeros(123))?;
    told(rt, "open, no source", &dome::open(0))?;
    told(rt, "open, 9 sources", &dome::open(9))
}

fn refused_render(rt: &impl Print, s: Session) -> io::Result<()> {
    let samples = [0.0; 8];
    let mut out = [0.0; HEARD];
    let mut long = [0.0; HEARD + 1];
    told(
        rt,
        "render 0 samples",
        &session_render::render(s, 0, &samples, &mut out),
    )?;
    told(
        rt,
        "render 1,025 samples",
        &session_render::render(s, 1025, &samples, &mut out),
    )?;
    told(
        rt,
        "render 4 samples, 7 in the sample buffer",
        &session_render::render(s, 4, &samples[..7], &mut out),
    )?;
    told(
        rt,
        "render 4 samples, 101 in the output buffer",
        &session_render::render(s, 4, &samples, &mut long),
    )
}

// A list of 16, and one more.
fn refused_full(rt: &impl Print, fresh: Session) -> io::Result<()> {
    let mut s = fresh;
    for _ in 0..16 {
        s = session_calls::place(s, 0, 0.0, 0.0).unwrap_or(s);
    }
    println!(rt; "(on a session whose source 0 has 16 standing directions)")?;
    place(rt, s, 0, Direction::of(0.0, 0.0))?;
    Ok(())
}

// A session made by hand: a count of 17 standing directions.
fn refused_malformed(rt: &impl Print, s: Session) -> io::Result<()> {
    let mut made = s;
    made.counts[7] = 17;
    println!(rt; "(on a session made by hand, with a count of 17 standing directions)")?;
    settle(rt, made, 0)?;
    Ok(())
}

fn refused(rt: &impl Print, fresh: Session, s: Session) -> io::Result<()> {
    refused_open(rt)?;
    place(rt, s, 2, Direction::of(0.0, 0.0))?;
    refused_render(rt, s)?;
    println!(rt; "(on a fresh session)")?;
    take_back(rt, fresh, 0)?;
    refused_full(rt, fresh)?;
    refused_malformed(rt, s)
}

// ---- all of it

pub fn rehearse(rt: &impl Print) -> io::Result<()> {
    heading(rt)?;
    let opened = dome::open(2);
    told(rt, "open, 2 sources", &opened)?;
    let Ok(opened) = opened else {
        return Ok(());
    };
    let fresh = opened.session;
    let first = first_block(rt, fresh)?;
    let second = second_block(rt, first)?;
    println!(rt;
        "\nWhat the session holds now, directions in radians, start rows as slot and gain:"
    )?;
    holds(rt, &second)?;
    println!(rt; "\nCalls that are refused, and change nothing:")?;
    heading(rt)?;
    refused(rt, fresh, second)
}
