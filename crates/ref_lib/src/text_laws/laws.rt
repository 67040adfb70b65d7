//! The text at a place, and the order of two texts, said of the characters there (C11 7.1.1p1, 7.24.4).
ghost use Rattle.ref_lib.specs.text_laws.Laws.{TextRead, TextFound, TextStopped, OrderRead};

/// What is found at a place is a text: characters other than the zero, and the zero behind them.
pub fn text_read()
    ensures { TextRead }
{}

/// A text at a place is found.
pub fn text_found()
    ensures { TextFound }
{}

/// Where no text is found a character before the first zero can't be read, and that is the reason.
pub fn text_stopped()
    ensures { TextStopped }
{}

/// Two texts are in the order of the first characters that differ, as unsigned ones, or that are both the zero.
pub fn order_read()
    ensures { OrderRead }
{}
