//! Rows of runs, written by checks/session_run_rows.py; see there.

/// A seed, a count, a number of samples, and the summary.
pub(crate) type Row = (u64, u32, usize, &'static str);

pub(crate) static ROWS: [Row; 11] = [
    (
        0,
        0,
        1408,
        "commands 11\nstatus 0 11\nstatus 1 0\nstatus 2 0\nstatus 3 0\nstatus 4 0\nstatus 5 0\nstatus 6 0\nstatus 7 0\nstatus 8 0\nstatus 9 0\nstatus 10 0\nstatus 11 0\nstatus 12 0\nstatus 13 0\nstatus 14 0\nstatus 15 0\npayload 0\nstate User\nsha256 2c59f938e5f530d63b9c48213d0a6d317adf9d76c9b015b5f366ec55707978f8\n",
    ),
    (
        0,
        1,
        1408,
        "commands 12\nstatus 0 12\nstatus 1 0\nstatus 2 0\nstatus 3 0\nstatus 4 0\nstatus 5 0\nstatus 6 0\nstatus 7 0\nstatus 8 0\nstatus 9 0\nstatus 10 0\nstatus 11 0\nstatus 12 0\nstatus 13 0\nstatus 14 0\nstatus 15 0\npayload 0\nstate User\nsha256 170a412732381cb862d0b558e5af8d67b72e0a58fb609ce64583b4b38d202e4f\n",
    ),
    (
        0,
        12,
        1408,
        "commands 23\nstatus 0 23\nstatus 1 0\nstatus 2 0\nstatus 3 0\nstatus 4 0\nstatus 5 0\nstatus 6 0\nstatus 7 0\nstatus 8 0\nstatus 9 0\nstatus 10 0\nstatus 11 0\nstatus 12 0\nstatus 13 0\nstatus 14 0\nstatus 15 0\npayload 3260\nstate User\nsha256 cd9a09adfe1da6f53b8d26065810d6c923dda1e34698435ed9b0ef6a2f0589d3\n",
    ),
    (
        7,
        0,
        1408,
        "commands 11\nstatus 0 11\nstatus 1 0\nstatus 2 0\nstatus 3 0\nstatus 4 0\nstatus 5 0\nstatus 6 0\nstatus 7 0\nstatus 8 0\nstatus 9 0\nstatus 10 0\nstatus 11 0\nstatus 12 0\nstatus 13 0\nstatus 14 0\nstatus 15 0\npayload 0\nstate User\nsha256 2c59f938e5f530d63b9c48213d0a6d317adf9d76c9b015b5f366ec55707978f8\n",
    ),
    (
        7,
        1,
        1408,
        "commands 12\nstatus 0 12\nstatus 1 0\nstatus 2 0\nstatus 3 0\nstatus 4 0\nstatus 5 0\nstatus 6 0\nstatus 7 0\nstatus 8 0\nstatus 9 0\nstatus 10 0\nstatus 11 0\nstatus 12 0\nstatus 13 0\nstatus 14 0\nstatus 15 0\npayload 64\nstate User\nsha256 7fff141328c52fd15259beab2f51ef4c7f64c629e62dafdd50e0a4c067d66659\n",
    ),
    (
        7,
        12,
        1408,
        "commands 23\nstatus 0 22\nstatus 1 0\nstatus 2 0\nstatus 3 0\nstatus 4 0\nstatus 5 0\nstatus 6 0\nstatus 7 0\nstatus 8 0\nstatus 9 0\nstatus 10 0\nstatus 11 0\nstatus 12 0\nstatus 13 0\nstatus 14 1\nstatus 15 0\npayload 2646\nstate User\nsha256 8458b69052ae51105a4768a6cc0c6bd2a50cffb7444eb7a0a1a3ba585794c874\n",
    ),
    (
        18446744073709551615,
        0,
        1408,
        "commands 11\nstatus 0 11\nstatus 1 0\nstatus 2 0\nstatus 3 0\nstatus 4 0\nstatus 5 0\nstatus 6 0\nstatus 7 0\nstatus 8 0\nstatus 9 0\nstatus 10 0\nstatus 11 0\nstatus 12 0\nstatus 13 0\nstatus 14 0\nstatus 15 0\npayload 0\nstate User\nsha256 2c59f938e5f530d63b9c48213d0a6d317adf9d76c9b015b5f366ec55707978f8\n",
    ),
    (
        18446744073709551615,
        1,
        1408,
        "commands 12\nstatus 0 12\nstatus 1 0\nstatus 2 0\nstatus 3 0\nstatus 4 0\nstatus 5 0\nstatus 6 0\nstatus 7 0\nstatus 8 0\nstatus 9 0\nstatus 10 0\nstatus 11 0\nstatus 12 0\nstatus 13 0\nstatus 14 0\nstatus 15 0\npayload 32\nstate User\nsha256 8bd8201da7f9d01e3db746d8697a8c372381b681547b9a386a22cbdb82bfcb91\n",
    ),
    (
        18446744073709551615,
        12,
        1408,
        "commands 23\nstatus 0 22\nstatus 1 0\nstatus 2 0\nstatus 3 0\nstatus 4 0\nstatus 5 0\nstatus 6 0\nstatus 7 0\nstatus 8 0\nstatus 9 0\nstatus 10 0\nstatus 11 0\nstatus 12 0\nstatus 13 0\nstatus 14 1\nstatus 15 0\npayload 1345\nstate User\nsha256 86d59b548f52d13eff94018153bb17bf47a801de7c9b76ab31120df1bf6b836a\n",
    ),
    (
        7,
        3,
        1407,
        "commands 14\nstatus 0 4\nstatus 1 0\nstatus 2 9\nstatus 3 0\nstatus 4 0\nstatus 5 1\nstatus 6 0\nstatus 7 0\nstatus 8 0\nstatus 9 0\nstatus 10 0\nstatus 11 0\nstatus 12 0\nstatus 13 0\nstatus 14 0\nstatus 15 0\npayload 0\nstate Error\nsha256 0ed84352cec97d244a6b17a7330f5b5d2205c7bccb5fc0a47c0fbf0ec4cb0492\n",
    ),
    (
        0,
        2,
        0,
        "commands 13\nstatus 0 5\nstatus 1 0\nstatus 2 7\nstatus 3 0\nstatus 4 0\nstatus 5 1\nstatus 6 0\nstatus 7 0\nstatus 8 0\nstatus 9 0\nstatus 10 0\nstatus 11 0\nstatus 12 0\nstatus 13 0\nstatus 14 0\nstatus 15 0\npayload 0\nstate Error\nsha256 471727831aaca0792265f9d0f3c9fa8cd73f715b226466599e9e187c4c9c4822\n",
    ),
];
