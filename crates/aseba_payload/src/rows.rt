/// The table of messages: each type's number, its variant, and its fields with their spelling. A
/// `word` is two bytes, the lower first; a `text` is a byte for its length and then its bytes;
/// `params` are a word for their count and for each a size and a text; `words` are all that remain.
/// `User` isn't in it, since it has every type below 0x8000.
macro_rules! rows {
    ($each:ident $args:tt) => {
        $each! {
            $args
            0x9000 Describe { name: text, version: word, code: word, stack: word, cells: word, variables: word, locals: word, natives: word }
            0x9001 Variable { size: word, name: text }
            0x9002 LocalEvent { name: text, text: text }
            0x9003 NativeOf { name: text, text: text, params: params }
            0x9005 Variables { start: word, words: words }
            0x9006 BoundsAt { pc: word, size: word, index: word }
            0x9007 DivisionAt { pc: word }
            0x9008 KilledAt { pc: word }
            0x9009 ErrorAt { pc: word, text: text }
            0x900a State { pc: word, flags: word }
            0x900b BreakSet { pc: word, result: word }
            0x900c Present { version: word }
            0xa000 GetDescription { version: word }
            0xa001 SetBytecode { node: word, start: word, words: words }
            0xa002 Reset { node: word }
            0xa003 Run { node: word }
            0xa004 Pause { node: word }
            0xa005 Step { node: word }
            0xa006 Stop { node: word }
            0xa007 GetState { node: word }
            0xa008 SetBreak { node: word, pc: word }
            0xa009 ClearBreak { node: word, pc: word }
            0xa00a ClearBreaks { node: word }
            0xa00b GetVariables { node: word, start: word, length: word }
            0xa00c SetVariables { node: word, start: word, words: words }
            0xa010 GetNodeDescription { node: word, version: word }
            0xa011 ListNodes { version: word }
        }
    };
}

pub(crate) use rows;
