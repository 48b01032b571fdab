// Sentences as words with the answers that judge owes: a table of cases, run as tests.
#![tactic(auto)]

#[cfg(test)]
mod tests {
    use ground::ground::verdict;
    use std::test::Fail;
    use word_text::answer::{Line, verdict_of_text};
    use words::answer::Answer;

    // a text of words, and the line that answers it
    struct Case {
        words: &'static str,
        line: &'static str,
    }

    const CASES: [Case; 26] = [
        Case {
            words: "0 1 7 -1",
            line: "holds",
        },
        Case {
            words: "0 1 7 1",
            line: "fails",
        },
        Case {
            words: "0 1 7 0",
            line: "fails",
        },
        Case {
            words: "0 2 7 0",
            line: "holds",
        },
        Case {
            words: "0 2 7 -1",
            line: "fails",
        },
        Case {
            words: "0 3 2 7 -1",
            line: "holds",
        },
        Case {
            words: "0 4 1 7 -1 2 7 0",
            line: "holds",
        },
        Case {
            words: "0 4 1 7 -1 2 7 1",
            line: "fails",
        },
        Case {
            words: "0 5 1 7 1 2 7 1",
            line: "fails",
        },
        Case {
            words: "0 5 1 7 1 2 7 0",
            line: "holds",
        },
        Case {
            words: "0 2 8 9 7 3 7 3 7 -9",
            line: "holds",
        },
        Case {
            words: "0\n2 7\r\n0\n",
            line: "holds",
        },
        Case {
            words: "0 1 7 65536",
            line: "no 3",
        },
        Case {
            words: "0 1 7 -65536",
            line: "no 3",
        },
        Case {
            words: "0 1 7 65535",
            line: "fails",
        },
        Case {
            words: "1 0 2 6 1",
            line: "no 3",
        },
        Case {
            words: "1 0 2 6 0 5",
            line: "no 3",
        },
        Case {
            words: "1 2 2 6 0",
            line: "no 3",
        },
        Case {
            words: "",
            line: "no 3",
        },
        Case {
            words: "0 1 7 x",
            line: "no 3",
        },
        Case {
            words: "0 1 7 -",
            line: "no 3",
        },
        Case {
            words: "1 0 2 6 0",
            line: "not decided yet",
        },
        Case {
            words: "0 2 9 7 65535 7 65535",
            line: "given up",
        },
        Case {
            words: "0 5 1 7 -1 2 9 7 65535 7 65535",
            line: "holds",
        },
        Case {
            words: "0 5 2 9 7 65535 7 65535 1 7 -1",
            line: "given up",
        },
        Case {
            words: "0 5 5 5 5 5 5 5 5 5 5 5 1 7 1 1 7 1 1 7 1 1 7 1 1 7 1 1 7 1 1 7 1 1 7 1 1 7 1 1 7 1 1 7 1 1 7 1",
            line: "given up",
        },
    ];

    #[test]
    fn table_of_cases(rt: HostRuntime) -> Result<(), Fail> {
        for case in &CASES {
            let line = Line(verdict_of_text(rt.alloc(), case.words.as_bytes())?);
            assert_eq!(rt;
                format!(in rt.alloc(); "{line}")?.as_str(),
                case.line,
                "{}",
                case.words
            );
        }
        Ok(())
    }

    // Ninety comparisons joined by and: few questions, however long it is.
    #[test]
    fn ninety_joined_by_and(rt: HostRuntime) -> Result<(), Fail> {
        let mut words = vec![in rt.alloc(); 0i64]?;
        for _ in 0..89 {
            words.push(4)?;
        }
        for _ in 0..90 {
            words.push(1)?;
            words.push(7)?;
            words.push(-1)?;
        }
        assert_eq!(rt; verdict(&words), Ok(Answer::Yes));
        Ok(())
    }
}
