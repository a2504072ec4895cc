// Flow files and what becomes of them: tests over tables of small files, over long files, and over random
// files, which a second reader judges too.

#![tactic(auto)]

#[cfg(test)]
mod long;
#[cfg(test)]
mod naive;
#[cfg(test)]
mod random;
#[cfg(test)]
mod said;
#[cfg(test)]
mod small;
#[cfg(test)]
mod told;
