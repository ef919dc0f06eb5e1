// Something in each load case.

#[derive(Clone, Copy)]
pub struct FourCases<T> {
    pub case1: T,
    pub case2: T,
    pub case3: T,
    pub case4: T,
}

// In the one case of the old form, or in each of four.
#[derive(Clone, Copy)]
pub enum ByForm<T> {
    One(T),
    Four(FourCases<T>),
}
