//! The code of methods, written down by hand from the equations: a source in a class Counter with one instance variable,
//! `count`, and below it the depth and the instruction of each place of its code.

const CODES: &str = r#"m
0 PushSelf
1 Answer

m 1. 2
0 PushLit(Int(1))
1 Pop
0 PushLit(Int(2))
1 Pop
0 PushSelf
1 Answer

a ^3 + 4 * 2
0 PushLit(Int(3))
1 PushLit(Int(4))
2 Send(Selector(5), 1)
1 PushLit(Int(2))
2 Send(Selector(7), 1)
1 Answer

start count := 0
0 PushLit(Int(0))
1 StoreSlot(0)
1 Pop
0 PushSelf
1 Answer

bump count := count + 1. ^count
0 PushSlot(0)
1 PushLit(Int(1))
2 Send(Selector(5), 1)
1 StoreSlot(0)
1 Pop
0 PushSlot(0)
1 Answer

m: x | t | t := x + 1. ^t
0 PushTemp(0)
1 PushLit(Int(1))
2 Send(Selector(5), 1)
1 StoreTemp(1)
1 Pop
0 PushTemp(1)
1 Answer

m | a b | a := b := 3
0 PushLit(Int(3))
1 StoreTemp(1)
1 StoreTemp(0)
1 Pop
0 PushSelf
1 Answer

+ x ^nil = true
0 PushLit(Nil)
1 PushLit(Bool(true))
2 Send(Selector(1), 1)
1 Answer

m ^thisActor = Counter
0 PushActor
1 PushLit(Class(ClassId(8)))
2 Send(Selector(1), 1)
1 Answer

m ^(1 - (2 - 3)) foo
0 PushLit(Int(1))
1 PushLit(Int(2))
2 PushLit(Int(3))
3 Send(Selector(6), 1)
2 Send(Selector(6), 1)
1 Send(Selector(23), 0)
1 Answer

foo ^(self at: 1 \\ 2 put: #doesNotUnderstand:) class foo newActor last
0 PushSelf
1 PushLit(Int(1))
2 PushLit(Int(2))
3 Send(Selector(9), 1)
2 PushLit(Sym(Selector(4)))
3 Send(Selector(23), 2)
1 Send(Selector(2), 0)
1 Send(Selector(22), 0)
1 Send(Selector(21), 0)
1 Send(Selector(24), 0)
1 Answer

m ^self at: -1 put: #foo:bar:
0 PushSelf
1 PushLit(Int(-1))
2 PushLit(Sym(Selector(23)))
3 Send(Selector(24), 2)
1 Answer

m ^1 foo: 2 bar + 3 baz: 4
0 PushLit(Int(1))
1 PushLit(Int(2))
2 Send(Selector(23), 0)
2 PushLit(Int(3))
3 Send(Selector(5), 1)
2 PushLit(Int(4))
3 Send(Selector(24), 2)
1 Answer

who ^super who + 10
0 PushSelf
1 SuperSend(Selector(22), 0)
1 PushLit(Int(10))
2 Send(Selector(5), 1)
1 Answer

m: x ^(super m: x) m: super foo
0 PushSelf
1 PushTemp(0)
2 SuperSend(Selector(22), 1)
1 PushSelf
2 SuperSend(Selector(23), 0)
2 Send(Selector(22), 1)
1 Answer

c ^1 + 2; + 10; * 4
0 PushLit(Int(1))
1 Dup
2 PushLit(Int(2))
3 Send(Selector(5), 1)
2 Pop
1 Dup
2 PushLit(Int(10))
3 Send(Selector(5), 1)
2 Pop
1 PushLit(Int(4))
2 Send(Selector(7), 1)
1 Answer

m self a; b: 1; c
0 PushSelf
1 Dup
2 Send(Selector(23), 0)
2 Pop
1 Dup
2 PushLit(Int(1))
3 Send(Selector(24), 1)
2 Pop
1 Send(Selector(25), 0)
1 Pop
0 PushSelf
1 Answer

d ^false ifTrue: [1]
0 PushLit(Bool(false))
1 JumpFalse(2)
0 PushLit(Int(1))
1 Jump(1)
0 PushLit(Nil)
1 Answer

m ^true ifFalse: []
0 PushLit(Bool(true))
1 JumpTrue(2)
0 PushLit(Nil)
1 Jump(1)
0 PushLit(Nil)
1 Answer

m ^self isNil ifTrue: [1. 2] ifFalse: [3]
0 PushSelf
1 Send(Selector(3), 0)
1 JumpFalse(4)
0 PushLit(Int(1))
1 Pop
0 PushLit(Int(2))
1 Jump(1)
0 PushLit(Int(3))
1 Answer

m ^self isNil ifFalse: [3] ifTrue: [1. 2]
0 PushSelf
1 Send(Selector(3), 0)
1 JumpTrue(2)
0 PushLit(Int(3))
1 Jump(3)
0 PushLit(Int(1))
1 Pop
0 PushLit(Int(2))
1 Answer

m: a ^a and: [count]
0 PushTemp(0)
1 JumpFalse(2)
0 PushSlot(0)
1 Jump(1)
0 PushLit(Bool(false))
1 Answer

m: a ^a or: [count]
0 PushTemp(0)
1 JumpTrue(2)
0 PushSlot(0)
1 Jump(1)
0 PushLit(Bool(true))
1 Answer

spin [true] whileTrue: [nil]
0 PushLit(Bool(true))
1 JumpFalse(3)
0 PushLit(Nil)
1 Pop
0 Jump(-5)
0 PushLit(Nil)
1 Pop
0 PushSelf
1 Answer

m ^1 + ([count < 3] whileFalse: [count := 1. 2])
0 PushLit(Int(1))
1 PushSlot(0)
2 PushLit(Int(3))
3 Send(Selector(10), 1)
2 JumpTrue(6)
1 PushLit(Int(1))
2 StoreSlot(0)
2 Pop
1 PushLit(Int(2))
2 Pop
1 Jump(-10)
1 PushLit(Nil)
2 Send(Selector(5), 1)
1 Answer

m self isNil ifTrue: [^1]. ^2
0 PushSelf
1 Send(Selector(3), 0)
1 JumpFalse(3)
0 PushLit(Int(1))
1 Answer
1 Jump(1)
0 PushLit(Nil)
1 Pop
0 PushLit(Int(2))
1 Answer

m ^1 whileTrue: 2
0 PushLit(Int(1))
1 PushLit(Int(2))
2 Send(Selector(23), 1)
1 Answer

m ^(true and: [false]) or: [nil]
0 PushLit(Bool(true))
1 JumpFalse(2)
0 PushLit(Bool(false))
1 Jump(1)
0 PushLit(Bool(false))
1 JumpTrue(2)
0 PushLit(Nil)
1 Jump(1)
0 PushLit(Bool(true))
1 Answer"#;

/// The text behind a function without a contract, so that the proof of a test carries none of it.
pub(super) fn codes() -> &'static str {
    CODES
}
