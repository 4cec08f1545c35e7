//! The heading of a picture as text.

ghost use Rattle.std.specs.Prelude.{OnOk, string_bytes};
ghost use Rattle.story_words.specs.Sentences.{told_first};
ghost use Rattle.story_words.specs.Writing.{Adds, AreWritten, IsLine};

use crate::elements::{begin_text, push, push_length};
use crate::shapes::Shape;
use crate::shown::OrderShown;
use crate::style::{
    HEADING_LEFT, HEADING_LETTER, HEADING_LINE, HEADING_TOP, INK, TITLE_FONT, TITLE_TOP,
};
use crate::words::{push_facts, push_order};
use audit_report::{OwnLines, Report, push_first_line};
use migration_types::Session;
use session_story::TopicStory;
use std::alloc::{AllocError, Global};
use story_words::{English, push_sentences, told_first};

/// The number of first sentences of the story in a heading.
const MOST_SENTENCES: usize = 2;

/// The session, its report and its story, which a picture shows.
#[derive(Clone, Copy)]
pub(crate) struct Subject<'a> {
    pub session: &'a Session,
    pub report: &'a Report,
    pub told: &'a TopicStory,
}

/// Appends the first sentences of a story, each on a line of its own: the cause of what is wrong, or that nothing is.
/// Fails only if memory runs out.
fn push_summary(out: &mut String, session: &Session, told: &TopicStory) -> Result<(), AllocError>
    ensures { OnOk result (Adds (AreWritten (λ _. IsLine) (told_first session.now told.now)) (string_bytes out.old) (string_bytes out.new)) }
{
    let sentences = told_first(*out.allocator(), session, told)?;
    push_sentences(&English { lines: &OwnLines }, out, session, &sentences)
}

/// A heading while it is written.
#[derive(Drop)]
pub(crate) struct Heading {
    pub text: Vec<u8>,
    /// The height of its next line.
    pub y: u64,
    /// The greatest number of letters in a line.
    most: u64,
}

/// Appends the first line, which is the report's.
fn push_title(out: &mut Vec<u8>, report: &Report) -> Result<(), AllocError> {
    begin_text(out, INK)?;
    push_length(out, b"x", HEADING_LEFT)?;
    push_length(out, b"y", TITLE_TOP)?;
    push_length(out, b"font-size", TITLE_FONT)?;
    push(out, b" font-weight='bold'>")?;
    push_first_line(out, report)?;
    push(out, b"</text>\n")
}

impl Heading {
    /// Appends a line.
    fn push_line(&mut self, words: &[u8]) -> Result<(), AllocError> {
        begin_text(&mut self.text, INK)?;
        push_length(&mut self.text, b"x", HEADING_LEFT)?;
        push_length(&mut self.text, b"y", self.y)?;
        push(&mut self.text, b">")?;
        push(&mut self.text, words)?;
        push(&mut self.text, b"</text>\n")?;
        self.y = self.y.saturating_add(HEADING_LINE);
        Ok(())
    }

    /// Appends a word to a line, or begins the next line with it if the line has no room for it.
    fn push_word(&mut self, line: &mut Vec<u8>, word: &[u8]) -> Result<(), AllocError> {
        if !line.is_empty() {
            if (line.len().saturating_add(word.len()) as u64) < self.most {
                push(line, b" ")?;
            } else {
                self.push_line(line)?;
                line.clear();
            }
        }
        push(line, word)
    }

    /// Appends the lines of a sentence, given empty room for a line and for a word.
    fn push_words(
        &mut self,
        line: &mut Vec<u8>,
        word: &mut Vec<u8>,
        sentence: &[u8],
    ) -> Result<(), AllocError> {
        for letter in sentence {
            if *letter == b' ' {
                self.push_word(line, word)?;
                word.clear();
            } else {
                word.push(*letter)?;
            }
        }
        self.push_word(line, word)?;
        self.push_line(line)
    }

    /// Appends the lines of a sentence.
    fn push_sentence(&mut self, alloc: Global, sentence: &[u8]) -> Result<(), AllocError> {
        let mut line = Vec::new(alloc);
        let mut word = Vec::new(alloc);
        self.push_words(&mut line, &mut word, sentence)
    }

    /// Appends the lines of the first sentences of a text, in which each sentence is a line.
    fn push_sentences(&mut self, alloc: Global, text: &[u8]) -> Result<(), AllocError> {
        let mut sentence = Vec::new(alloc);
        let mut left = MOST_SENTENCES;
        for letter in text {
            if left > 0 {
                if *letter == b'\n' {
                    self.push_sentence(alloc, &sentence)?;
                    sentence.clear();
                    left -= 1;
                } else {
                    sentence.push(*letter)?;
                }
            }
        }
        Ok(())
    }

    /// Appends the lines of the first sentences of the story.
    fn push_told(&mut self, alloc: Global, subject: Subject<'_>) -> Result<(), AllocError> {
        let mut text = String::new(alloc);
        push_summary(&mut text, subject.session, subject.told)?;
        self.push_sentences(alloc, text.as_bytes())
    }

    /// Appends the line that says which order is shown.
    fn push_order(&mut self, alloc: Global, order: OrderShown) -> Result<(), AllocError> {
        let mut words = Vec::new(alloc);
        push_order(&mut words, order)?;
        self.push_line(&words)
    }

    /// Appends the line that describes the session.
    fn push_facts(&mut self, alloc: Global, session: &Session) -> Result<(), AllocError> {
        let mut words = Vec::new(alloc);
        push_facts(&mut words, session)?;
        self.push_line(&words)
    }

    /// Appends a shape, if it belongs to the heading.
    fn push_shape(
        &mut self,
        alloc: Global,
        subject: Subject<'_>,
        shape: &Shape,
    ) -> Result<(), AllocError> {
        match shape {
            Shape::Title => push_title(&mut self.text, subject.report),
            Shape::Summary => self.push_told(alloc, subject),
            Shape::Order(order) => self.push_order(alloc, *order),
            Shape::Facts => self.push_facts(alloc, subject.session),
            _ => Ok(()),
        }
    }
}

/// Returns the heading with these shapes, in a picture of this width.
pub(crate) fn heading_of(
    alloc: Global,
    subject: Subject<'_>,
    shapes: &[Shape],
    width: u64,
) -> Result<Heading, AllocError> {
    let mut heading = Heading {
        text: Vec::new(alloc),
        y: HEADING_TOP,
        most: width.saturating_sub(2 * HEADING_LEFT) / HEADING_LETTER,
    };
    for shape in shapes {
        heading.push_shape(alloc, subject, shape)?;
    }
    Ok(heading)
}
