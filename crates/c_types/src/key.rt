// What names an object of a program.

/// An object of a program: an entity of it (an object, a function or a compound literal), a core node (a string literal,
/// or a call that gives a new object), a library object by its position, or a library function by its number, `Star` for
/// what its calls through pointers give. `Varargs` is what is passed past the last parameter of a variadic function, by
/// the function's entity (C11 7.16). `Outside` is all memory that a program without `main` is given by its callers.
#[derive(Clone, Copy, Debug, PartialEq, Eq)]
pub enum ObjectKey {
    Entity(u32),
    Text(u32),
    Call(u32),
    Library(u32),
    Star(u32),
    Function(u32),
    Varargs(u32),
    Outside,
}
