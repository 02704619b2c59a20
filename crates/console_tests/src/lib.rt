#![tactic(auto)]

// Tests of what lines of input are read as, for a program with one rule and one word of its own.
#[cfg(test)]
mod tests {
    use console::{Command, Fault, read_line};
    use std::alloc::Global;
    use std::str::FromStr;
    use std::test::Fail;
    use trees::Shape;

    #[derive(Clone, Copy, Debug, PartialEq, Eq)]
    struct One;

    impl FromStr for One {
        type Err = Fault;

        fn from_str(name: &str) -> Result<One, Fault> {
            match name {
                "one" => Ok(One),
                _ => Err(Fault::NoRule("one and none")),
            }
        }
    }

    #[derive(Clone, Copy, Debug, PartialEq, Eq)]
    struct List;

    impl FromStr for List {
        type Err = Fault;

        fn from_str(word: &str) -> Result<List, Fault> {
            match word {
                "list" => Ok(List),
                _ => Err(Fault::UnknownWord("shape, stack, rule, tree and list")),
            }
        }
    }

    fn read(heap: Global, line: &str) -> Result<Command<One, List>, Fault> {
        read_line(heap, line)
    }

    #[test]
    fn lines_without_a_tree(rt: HostRuntime) {
        let heap = rt.alloc();
        assert!(rt; matches!(read(heap, ""), Ok(Command::Nothing)));
        assert!(rt; matches!(read(heap, " \t "), Ok(Command::Nothing)));
        assert!(rt; matches!(read(heap, "stack 0"), Ok(Command::Stack(0))));
        assert!(rt; matches!(read(heap, " stack  +8192 "), Ok(Command::Stack(8192))));
        assert!(rt; matches!(read(heap, "rule none"), Ok(Command::Rule(None))));
        assert!(rt; matches!(read(heap, "rule  one"), Ok(Command::Rule(Some(One)))));
        assert!(rt; matches!(read(heap, "list"), Ok(Command::Own(List))));
        assert!(rt; matches!(read(heap, "list ,"), Ok(Command::Own(List))));
        let shape = Shape {
            leaves: 8,
            inners: 4,
            tracks: 6,
        };
        match read(heap, "shape 8, 4,6") {
            Ok(Command::Shape(read)) => assert_eq!(rt; read, shape),
            _ => assert!(rt; false, "a shape was read"),
        }
    }

    #[test]
    fn bytes_of_a_listing(rt: HostRuntime) -> Result<(), Fail> {
        let heap = rt.alloc();
        let empty: [u8; 0] = [];
        for (line, want) in [
            ("tree", empty.as_slice()),
            ("tree 0,1,1,0,2,0", [0, 1, 1, 0, 2, 0].as_slice()),
            ("tree 0 1 , 255 007", [0, 1, 255, 7].as_slice()),
        ] {
            match read(heap, line) {
                Ok(Command::Tree(bytes)) => assert_eq!(rt; bytes.as_slice(), want, "of {line}"),
                _ => return Err(Fail::new("a tree was read")),
            }
        }
        Ok(())
    }

    #[test]
    fn faults(rt: HostRuntime) {
        let heap = rt.alloc();
        for (line, fault) in [
            ("stack two", Fault::NotANumber),
            ("stack -1", Fault::NotANumber),
            ("tree 1,300x", Fault::NotANumber),
            ("stack 99999999999999999999999999", Fault::TooLarge),
            ("stack 8193", Fault::TooLarge),
            ("stack 8193 1", Fault::TooLarge),
            ("tree 0,256", Fault::TooLarge),
            ("shape 2 1 2 3", Fault::TooMany),
            ("list 1", Fault::TooMany),
            ("list now", Fault::NotANumber),
            ("shape 2 1", Fault::TooFew),
            ("stack", Fault::TooFew),
            ("shape 9 1 2", Fault::NoShape),
            ("rule 1", Fault::NoRule("one and none")),
            ("rule", Fault::NoRule("one and none")),
            (
                "rule2",
                Fault::UnknownWord("shape, stack, rule, tree and list"),
            ),
            (
                "lists 1",
                Fault::UnknownWord("shape, stack, rule, tree and list"),
            ),
        ] {
            assert_eq!(rt; read(heap, line).err(), Some(fault), "of {line}");
        }
    }
}
