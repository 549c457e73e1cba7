use fixed_units::MathBox;
use serde_json::Value;
use std::alloc::AllocError;
use std::fmt::Write;

/// The box that a list of seven whole numbers is: width, ascent, descent, ink ascent, ink descent,
/// italics correction, accent position.
pub fn box_of(value: &Value) -> Option<MathBox> {
    let [
        width,
        ascent,
        descent,
        ink_ascent,
        ink_descent,
        italic,
        accent,
    ] = seven_of(value.as_array()?.as_slice())?;
    Some(MathBox {
        width,
        ascent,
        descent,
        ink_ascent,
        ink_descent,
        italic,
        accent,
    })
}

/// The whole numbers that seven values are.
fn seven_of(values: &[Value]) -> Option<[i64; 7]> {
    if values.len() != 7 {
        return None;
    }
    let mut seven = [0; 7];
    for place in 0..7 {
        seven[place] = number_of(&values[place])?;
    }
    Some(seven)
}

/// The whole number that a value is.
pub fn number_of(value: &Value) -> Option<i64> {
    value.as_i64()
}

/// Adds the seven numbers of a box in the same order, one space apart.
pub fn add_box(frame: &MathBox, words: &mut String) -> Result<(), AllocError> {
    write!(words, "{}", frame.width)?;
    let others = [
        frame.ascent,
        frame.descent,
        frame.ink_ascent,
        frame.ink_descent,
        frame.italic,
        frame.accent,
    ];
    for number in others.as_slice() {
        add_number(*number, words)?;
    }
    Ok(())
}

/// Adds a number behind a space.
fn add_number(number: i64, words: &mut String) -> Result<(), AllocError> {
    write!(words, " {number}")
}
